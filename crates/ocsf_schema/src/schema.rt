// A compiled schema.
ghost use Rattle.std.specs.Prelude.{◌≡◌, IfOk, IfSome, OnOk, OnErr, is_some, length};
ghost use Rattle.std.specs.Io.KnownBytes.{Appends};
ghost use Rattle.ocsf_edge.specs.Faults.{HasCause};
ghost use Rattle.ocsf_edge.specs.Sink.{AppendsPrefix};
ghost use Rattle.std.specs.Option.{option_copied};
ghost use Rattle.ocsf_lists.specs.ByName.{IsByName, at_name};
ghost use Rattle.ocsf_tree.specs.Lookup.{member_at};
ghost use Rattle.ocsf_tree.specs.Valid.{IsValid};

use crate::lookup::{classes_by_uid, find_by_key};
use crate::printing::schema_bytes;
use crate::rope::Rope;
use crate::{Attr, Item, Kind, Piece, SchemaParts};
use ocsf_edge::{Failed, Sink};
use ocsf_tree::{Key, Shared, Tree, find_by_name};
use std::alloc::{AllocError, Global};
use std::collections::BTreeMap;
use std::marker::Model;

/// A compiled schema with its print; contracts see its parts.
pub struct Schema {
    parts: SchemaParts,
    text: Rope,
    printed: Option<usize>,
    classes: BTreeMap<u64, Shared<Piece>>,
}

impl Drop for Schema {
    fn drop(self) {
        let Schema {
            parts: _,
            text: _,
            printed: _,
            classes: _,
        } = self;
    }
}

impl Model for Schema {
    ghost use Rattle.std.specs.Prelude.{◌≡◌, length};
    ghost use Rattle.ocsf_schema.specs.declared.parts.SchemaParts.{SchemaParts};
    ghost use Rattle.std.specs.Coded.{codes};
    ghost use Rattle.ocsf_tree.specs.contracts.tree.Tree as tree;

    ghost Value = { SchemaParts };

    ghost coded = { Prim.hlevel (codes, tree.the_row.coded) };

    ghost use Rattle.std.specs.Prelude.{ℕ};
    ghost use Rattle.std.specs.BTreeMap.{get};
    ghost use Rattle.std.specs.Ordering.{nat_cmp};
    ghost use Rattle.ocsf_lists.specs.ByName.{IsByName};
    ghost use Rattle.ocsf_tree.specs.Valid.{IsValid};
    ghost use Rattle.ocsf_schema.specs.Count.{IsCount};
    ghost use Rattle.ocsf_schema.specs.Lookups.{IsByKey, class_at};
    ghost use Rattle.ocsf_schema.specs.Schema.{schema_text};

    ghost view = { λ schema. schema.parts };

    ghost invariant = { λ schema. (schema.text ≡ schema_text schema.parts)
        × IsCount (length (schema_text schema.parts)) schema.printed
        × ((uid : ℕ) → get nat_cmp schema.classes uid ≡ class_at uid schema.parts.pieces)
        × IsByKey schema.parts.pieces
        × IsByName (λ kind. kind.name) schema.parts.kinds
        × IsValid schema.parts.categories
        × IsValid schema.parts.dictionary
        × IsValid schema.parts.extensions
        × IsValid schema.parts.profiles
        × IsValid schema.parts.types };
}

impl Schema {
    ghost use Rattle.ocsf_schema.specs.Count.{IsCount};
    ghost use Rattle.ocsf_schema.specs.Lookups.{IsByKey, item_at, class_at, IsInOrder};
    ghost use Rattle.ocsf_schema.specs.Schema.{schema_text};

    /// The schema that holds these parts. The five trees are what the members of their names hold in the printed
    /// schema.
    pub fn of(alloc: Global, parts: SchemaParts) -> Result<Schema, AllocError>
        requires pieces { IsByKey parts.pieces }
        requires kinds { IsByName (λ kind. kind.name) parts.kinds }
        requires categories { IsValid parts.categories }
        requires dictionary { IsValid parts.dictionary }
        requires extensions { IsValid parts.extensions }
        requires profiles { IsValid parts.profiles }
        requires types { IsValid parts.types }
        ensures { IfOk result (λ schema. schema ≡ parts) }
    {
        let text = schema_bytes(alloc, &parts)?;
        let printed = text.len();
        let classes = classes_by_uid(alloc, parts.pieces.as_slice())?;
        Ok(Schema {
            parts,
            text,
            printed,
            classes,
        })
    }

    /// The item of that key. It takes no memory.
    pub fn item(&self, key: &Key) -> Option<&Item>
        ensures item { option_copied result ≡ item_at key.now self.now.pieces }
        ensures order { IfSome result (λ item. IsInOrder item.now) }
    {
        find_by_key(self.parts.pieces.as_slice(), key)
    }

    /// The first by key of the classes that aren't hidden and have that number. It takes no memory.
    pub fn class_by_uid(&self, uid: u64) -> Option<&Item>
        ensures class { option_copied result ≡ class_at uid self.now.pieces }
        ensures order { IfSome result (λ item. IsInOrder item.now) }
    {
        match self.classes.get(&uid) {
            Some(piece) => Some(piece.get().item()),
            None => None,
        }
    }

    /// The attribute of that name. It takes no memory. Each item of a schema has its attributes by name.
    pub fn attr<'a>(&'a self, item: &'a Item, name: &str) -> Option<&'a Attr>
        requires { IsByName (λ attr. attr.name) item.now.attrs }
        ensures { option_copied result ≡ at_name (λ attr. attr.name) name.now item.now.attrs }
    {
        find_by_name(item.attrs.as_slice(), name)
    }

    /// The data type of that name. It takes no memory.
    pub fn kind(&self, name: &str) -> Option<&Kind>
        ensures { option_copied result ≡ at_name (λ kind. kind.name) name.now self.now.kinds }
    {
        find_by_name(self.parts.kinds.as_slice(), name)
    }

    /// Whether there is a profile of that key. It takes no memory.
    pub fn has_profile(&self, key: &str) -> bool
        ensures { result ≡ is_some (member_at key.now self.now.profiles) }
    {
        self.parts.profiles.at(key).is_some()
    }

    /// What is printed of the categories, each by its key.
    pub fn categories(&self) -> &Tree
        ensures tree { result.now ≡ self.now.categories }
        ensures valid { IsValid result.now }
    {
        &self.parts.categories
    }

    /// What is printed of the attributes of the dictionaries, each by its name.
    pub fn dictionary(&self) -> &Tree
        ensures tree { result.now ≡ self.now.dictionary }
        ensures valid { IsValid result.now }
    {
        &self.parts.dictionary
    }

    /// What is printed of the extensions, each by its name.
    pub fn extensions(&self) -> &Tree
        ensures tree { result.now ≡ self.now.extensions }
        ensures valid { IsValid result.now }
    {
        &self.parts.extensions
    }

    /// What is printed of the profiles, each by its key.
    pub fn profiles(&self) -> &Tree
        ensures tree { result.now ≡ self.now.profiles }
        ensures valid { IsValid result.now }
    {
        &self.parts.profiles
    }

    /// What is printed of the data types, each by its name.
    pub fn types(&self) -> &Tree
        ensures tree { result.now ≡ self.now.types }
        ensures valid { IsValid result.now }
    {
        &self.parts.types
    }

    /// How many bytes the printed schema has, and nothing where their number has more than 64 bits.
    pub fn printed_len(&self) -> Option<usize>
        ensures { IsCount (length (schema_text self.now)) result }
    {
        self.printed
    }

    /// Writes the printed schema, a compact JSON object and a line feed. After a failure a front of it was written.
    pub fn write_to<K: Sink>(&self, sink: &mut K) -> Result<(), Failed>
        ensures ok { OnOk result (Appends (K.written sink.old) (K.written sink.new) (schema_text self.now)) }
        ensures err { OnErr result (AppendsPrefix (K.written sink.old) (K.written sink.new) (schema_text self.now)) }
        ensures cause { HasCause (K.write_faults sink.old) (K.write_faults sink.new) result }
    {
        self.text.write_to(sink)
    }
}
