// The compiled records, as the layers above the compiler read them.
use ocsf_tree::{EnumMember, Key, Named, Requirement, Row, Span, Text, Tree};

/// The built-in types that every type leads to.
#[derive(Clone, Copy, Debug, PartialEq, Eq)]
pub enum Base {
    /// `boolean_t`
    Boolean,
    /// `string_t`
    Words,
    /// `integer_t`
    Integer,
    /// `long_t`
    Long,
    /// `float_t`
    Float,
    /// `json_t`
    Json,
}

impl Base {
    ghost use Rattle.std.specs.Prelude.{◌≡◌};
    ghost use Rattle.ocsf_schema.specs.Bases.{base_of};

    /// The base type of that name. It takes no memory.
    pub fn named(name: &str) -> Option<Base>
        ensures { result ≡ base_of name.now }
    {
        if name == "boolean_t" {
            Some(Base::Boolean)
        } else if name == "string_t" {
            Some(Base::Words)
        } else if name == "integer_t" {
            Some(Base::Integer)
        } else if name == "long_t" {
            Some(Base::Long)
        } else if name == "float_t" {
            Some(Base::Float)
        } else if name == "json_t" {
            Some(Base::Json)
        } else {
            None
        }
    }
}

/// What one type on the way to a base asks of a value.
#[derive(Debug)]
pub struct Limit {
    /// The type that asks it.
    pub type_name: Text,
    /// The most Unicode characters of a text.
    pub max_len: Option<u64>,
    /// The least and the greatest whole number, both allowed.
    pub range: Option<Span>,
    /// A pattern that is searched in a text.
    pub pattern: Option<Text>,
    /// Whether a text has to be an instant.
    pub instant: bool,
    /// The only values allowed.
    pub values: Option<Row<Tree>>,
}

impl Drop for Limit {
    fn drop(self) {
        let Limit {
            type_name: _,
            max_len: _,
            range: _,
            pattern: _,
            instant: _,
            values: _,
        } = self;
    }
}

/// A data type: its base, and the limits on the way to it, its own first.
#[derive(Debug)]
pub struct Kind {
    pub name: Text,
    pub base: Base,
    pub limits: Row<Limit>,
}

impl Drop for Kind {
    fn drop(self) {
        let Kind {
            name: _,
            base: _,
            limits: _,
        } = self;
    }
}

impl Named for Kind {
    ghost name_of = { λ kind. kind.name };

    fn name(&self) -> &str {
        self.name.as_str()
    }
}

/// What the type of an attribute leads to.
#[derive(Debug, Drop)]
pub enum Target {
    /// The data type of that name.
    Simple(Text),
    /// The object of that key.
    Object(Text),
    /// The open object, which may hold anything.
    Anything,
}

/// An attribute of a compiled item.
#[derive(Debug)]
pub struct Attr {
    pub name: Text,
    pub caption: Option<Text>,
    pub description: Option<Text>,
    pub target: Target,
    pub is_array: bool,
    pub requirement: Requirement,
    /// The key of the profile that the attribute belongs to.
    pub profile: Option<Text>,
    pub group: Option<Text>,
    /// The attribute that holds the caption of this one's value.
    pub sibling: Option<Text>,
    /// The members of the enumeration, strictly by key.
    pub members: Row<EnumMember>,
}

impl Drop for Attr {
    fn drop(self) {
        let Attr {
            name: _,
            caption: _,
            description: _,
            target: _,
            is_array: _,
            requirement: _,
            profile: _,
            group: _,
            sibling: _,
            members: _,
        } = self;
    }
}

impl Named for Attr {
    ghost name_of = { λ attr. attr.name };

    fn name(&self) -> &str {
        self.name.as_str()
    }
}

/// A compiled class or object.
#[derive(Debug)]
pub struct Item {
    pub key: Key,
    pub caption: Option<Text>,
    pub description: Option<Text>,
    /// The key of the parent.
    pub parent: Option<Text>,
    /// Whether it only serves others as a base.
    pub hidden: bool,
    /// The key of a class's category.
    pub category: Option<Text>,
    pub category_uid: Option<u32>,
    pub class_uid: Option<u64>,
    /// The keys of its profiles, in byte order.
    pub profiles: Row<Text>,
    /// Attributes of which one or more are asked for.
    pub at_least_one: Row<Text>,
    /// Attributes of which exactly one is asked for.
    pub just_one: Row<Text>,
    /// Its attributes, strictly by name.
    pub attrs: Row<Attr>,
}

impl Drop for Item {
    fn drop(self) {
        let Item {
            key: _,
            caption: _,
            description: _,
            parent: _,
            hidden: _,
            category: _,
            category_uid: _,
            class_uid: _,
            profiles: _,
            at_least_one: _,
            just_one: _,
            attrs: _,
        } = self;
    }
}
