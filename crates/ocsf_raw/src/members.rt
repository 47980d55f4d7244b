// What is wanted of the members of an object.
ghost use Rattle.std.specs.Prelude.{◌≡◌, map};
ghost use Rattle.ocsf_raw.specs.Wanted.{field_of, fields_listed, item_fields, named_entry, is_include, item_entry_at};
ghost use Rattle.ocsf_raw.specs.Wanted.{layer_entry_at, enum_member_at, member_wanted, item_wanted, has_null_entries};

use crate::names::is_name;
use crate::wanted::{Listed, Object, Plain, Wanted};
use crate::what::What;
use ocsf_tree::{Side, Span};

const TEXT: Wanted = Wanted::Plain(Plain::Text);

const FLAG: Wanted = Wanted::Plain(Plain::Flag);

const NAME: Wanted = Wanted::Plain(Plain::Name);

const NAMES: Wanted = Wanted::Listed(Listed::Names);

const REFERENCE: Wanted = Wanted::Plain(Plain::Reference);

const REQUIREMENT: Wanted = Wanted::Plain(Plain::Requirement);

const ENUM: Wanted = Wanted::Object(Object::EnumMembers);

const UID: Wanted = Wanted::Plain(Plain::WholeIn(Span { low: 0, high: 999 }));

const VERSION: [(&str, Wanted); 1] = [("version", TEXT)];

const CATEGORIES: [(&str, Wanted); 1] = [("attributes", Wanted::Object(Object::Categories))];

const CATEGORY: [(&str, Wanted); 3] = [
    ("caption", TEXT),
    ("description", TEXT),
    (
        "uid",
        Wanted::Plain(Plain::WholeIn(Span { low: 0, high: 99 })),
    ),
];

const DICTIONARY: [(&str, Wanted); 2] = [
    ("attributes", Wanted::Object(Object::DictionaryEntries)),
    ("types", Wanted::Object(Object::TypeTable)),
];

const DICTIONARY_ENTRY: [(&str, Wanted); 6] = [
    ("caption", TEXT),
    ("description", TEXT),
    ("enum", ENUM),
    ("is_array", FLAG),
    ("sibling", NAME),
    ("type", REFERENCE),
];

const TYPE_TABLE: [(&str, Wanted); 1] = [("attributes", Wanted::Object(Object::Types))];

const TYPE: [(&str, Wanted); 7] = [
    ("caption", TEXT),
    ("description", TEXT),
    (
        "max_len",
        Wanted::Plain(Plain::WholeIn(Span {
            low: 0,
            high: 9223372036854775807,
        })),
    ),
    ("range", Wanted::Listed(Listed::Range)),
    ("regex", Wanted::Plain(Plain::Pattern)),
    ("type", NAME),
    ("values", Wanted::Listed(Listed::Values)),
];

const ITEM: [(&str, Wanted); 8] = [
    ("attributes", Wanted::Object(Object::ItemEntries)),
    ("caption", TEXT),
    ("category", REFERENCE),
    ("constraints", Wanted::Object(Object::Constraints)),
    ("description", TEXT),
    ("extends", REFERENCE),
    ("name", NAME),
    ("profiles", Wanted::Listed(Listed::References)),
];

const CONSTRAINTS: [(&str, Wanted); 2] = [("at_least_one", NAMES), ("just_one", NAMES)];

const PROFILE: [(&str, Wanted); 5] = [
    ("annotations", Wanted::Object(Object::Annotations)),
    ("attributes", Wanted::Object(Object::LayerEntries)),
    ("caption", TEXT),
    ("description", TEXT),
    ("name", NAME),
];

const ANNOTATIONS: [(&str, Wanted); 2] = [("group", TEXT), ("requirement", REQUIREMENT)];

const INCLUDE: [(&str, Wanted); 1] = [("attributes", Wanted::Object(Object::LayerEntries))];

const ENTRY: [(&str, Wanted); 9] = [
    ("caption", TEXT),
    ("description", TEXT),
    ("enum", ENUM),
    ("group", TEXT),
    ("is_array", FLAG),
    ("profile", Wanted::Plain(Plain::Mark)),
    ("requirement", REQUIREMENT),
    ("sibling", NAME),
    ("type", REFERENCE),
];

const ENUM_MEMBER: [(&str, Wanted); 2] = [("caption", TEXT), ("description", TEXT)];

const EXTENSION: [(&str, Wanted); 4] = [
    ("caption", TEXT),
    ("name", NAME),
    (
        "uid",
        Wanted::Plain(Plain::WholeIn(Span { low: 1, high: 999 })),
    ),
    ("version", TEXT),
];

const CHANGE: [(&str, Wanted); 4] = [
    ("disable", NAME),
    ("enable", NAME),
    ("put", TEXT),
    ("remove", TEXT),
];

const NOTHING: [(&str, Wanted); 0] = [];

// What the first row of that name says.
fn field_of(mut rows: &[(&str, Wanted)], name: &str) -> Option<Wanted>
    ensures { result ≡ field_of (map (λ row. (row.0.now, row.1)) rows.entry.now) name.now }
{
    while let [row, rest @ ..] = rows {
        if name == row.0 {
            return Some(row.1);
        }
        rows = rest;
    }
    None
}

// The members that an object of that kind has, but for those that go from names to entries. The `uid` of a
// class isn't among them.
fn listed(wanted: Object) -> &'static [(&'static str, Wanted)]
    ensures { map (λ row. (row.0.now, row.1)) result.now ≡ fields_listed wanted }
{
    match wanted {
        Object::ItemFile(_, _) => &ITEM,
        Object::VersionFile => &VERSION,
        Object::CategoriesFile => &CATEGORIES,
        Object::Category => &CATEGORY,
        Object::DictionaryFile => &DICTIONARY,
        Object::DictionaryEntry => &DICTIONARY_ENTRY,
        Object::TypeTable => &TYPE_TABLE,
        Object::Type => &TYPE,
        Object::Constraints => &CONSTRAINTS,
        Object::ProfileFile => &PROFILE,
        Object::Annotations => &ANNOTATIONS,
        Object::IncludeFile => &INCLUDE,
        Object::Entry => &ENTRY,
        Object::EnumMember => &ENUM_MEMBER,
        Object::ExtensionFile => &EXTENSION,
        Object::Change => &CHANGE,
        _ => &NOTHING,
    }
}

fn listed_field(wanted: Object, name: &str) -> Option<Wanted>
    ensures { result ≡ field_of (fields_listed wanted) name.now }
{
    field_of(listed(wanted), name)
}

fn item_field(side: Side, name: &str) -> Option<Wanted>
    ensures { result ≡ field_of (item_fields side) name.now }
{
    match side {
        Side::Class => if name == "uid" {
            Some(UID)
        } else {
            listed_field(Object::ItemFile(side, false), name)
        },
        Side::Object => listed_field(Object::ItemFile(side, false), name),
    }
}

fn named_entry(kind: Object, name: &str) -> Option<Wanted>
    ensures { result ≡ named_entry kind name.now }
{
    if is_name(name) {
        Some(Wanted::Object(kind))
    } else {
        Some(Wanted::Refused(What::BadName))
    }
}

/// Whether the member isn't an entry but says what is included.
pub fn is_include(name: &str) -> bool
    ensures { result ≡ is_include name.now }
{
    name == "$include"
}

fn item_entry_at(name: &str) -> Option<Wanted>
    ensures { result ≡ item_entry_at name.now }
{
    if is_include(name) {
        Some(Wanted::Listed(Listed::Includes))
    } else {
        named_entry(Object::Entry, name)
    }
}

fn layer_entry_at(name: &str) -> Option<Wanted>
    ensures { result ≡ layer_entry_at name.now }
{
    if is_include(name) {
        Some(Wanted::Refused(What::NestedInclude))
    } else {
        named_entry(Object::Entry, name)
    }
}

fn enum_member_at(name: &str) -> Option<Wanted>
    ensures { result ≡ enum_member_at name.now }
{
    if is_include(name) {
        None
    } else {
        Some(Wanted::Object(Object::EnumMember))
    }
}

/// What is wanted of the member of that name. `None` comes where it is passed by unread.
pub fn member_wanted(wanted: Object, name: &str) -> Option<Wanted>
    ensures { result ≡ member_wanted wanted name.now }
{
    match wanted {
        Object::Categories => named_entry(Object::Category, name),
        Object::DictionaryEntries => named_entry(Object::DictionaryEntry, name),
        Object::Types => named_entry(Object::Type, name),
        Object::ItemEntries => item_entry_at(name),
        Object::LayerEntries => layer_entry_at(name),
        Object::EnumMembers => enum_member_at(name),
        Object::ItemFile(side, _) => item_field(side, name),
        _ => listed_field(wanted, name),
    }
}

/// What is wanted of the items of a list. `None` comes where they are passed by unread.
pub fn item_wanted(wanted: Wanted) -> Option<Wanted>
    ensures { result ≡ item_wanted wanted }
{
    match wanted {
        Wanted::Listed(Listed::Names) => Some(Wanted::Plain(Plain::Name)),
        Wanted::Listed(Listed::References) => Some(Wanted::Plain(Plain::Reference)),
        Wanted::Listed(Listed::Range) => Some(Wanted::Plain(Plain::Whole)),
        Wanted::Listed(Listed::Includes) => Some(Wanted::Plain(Plain::IncludePath)),
        Wanted::Listed(Listed::Changes) => Some(Wanted::Object(Object::Change)),
        _ => None,
    }
}

/// Whether a member that is `null` is there: as an entry, or in a change.
pub fn has_null_entries(wanted: Object) -> bool
    ensures { result ≡ has_null_entries wanted }
{
    matches!(
        wanted,
        Object::ItemEntries | Object::LayerEntries | Object::Change
    )
}
