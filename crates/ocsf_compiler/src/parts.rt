// What a schema is made of besides its items.
ghost use Rattle.std.specs.Prelude.{◌≡◌, IfOk, All};
ghost use Rattle.ocsf_lists.specs.ByName.{IsByName};
ghost use Rattle.ocsf_tree.specs.Valid.{IsValid};
ghost use Rattle.ocsf_raw.specs.Ordered.{IsTypeValid};
ghost use Rattle.ocsf_rules.specs.Compilation.{compilation};
ghost use Rattle.ocsf_rules.specs.Verdict.{types_of};

use crate::attributes::merged_entries;
use crate::kinds::{data_types, kinds};
use crate::sections::{Section, section_tree};
use crate::tables::{dictionary_tree, types_tree};
use crate::types::merged_types;
use ocsf_bundle::Bundle;
use ocsf_raw::TypeEntry;
use ocsf_schema::{Kind, Piece, SchemaParts};
use ocsf_tree::{Row, Shared, Text, Tree};
use std::alloc::{AllocError, Global};

fn categories_of(alloc: Global, bundle: &Bundle) -> Result<Tree, AllocError>
    ensures tree { IfOk result (λ made. made ≡ (compilation bundle.now).categories) }
    ensures valid { IfOk result IsValid }
{
    let keys = bundle.category_keys()?;
    section_tree(alloc, bundle, Section::Categories, keys.as_slice())
}

fn extensions_of(alloc: Global, bundle: &Bundle) -> Result<Tree, AllocError>
    ensures tree { IfOk result (λ made. made ≡ (compilation bundle.now).extensions) }
    ensures valid { IfOk result IsValid }
{
    section_tree(alloc, bundle, Section::Extensions, bundle.enabled())
}

fn profiles_of(alloc: Global, bundle: &Bundle) -> Result<Tree, AllocError>
    ensures tree { IfOk result (λ made. made ≡ (compilation bundle.now).profiles) }
    ensures valid { IfOk result IsValid }
{
    let keys = bundle.profile_keys()?;
    section_tree(alloc, bundle, Section::Profiles, keys.as_slice())
}

fn dictionary_of(alloc: Global, bundle: &Bundle) -> Result<Tree, AllocError>
    ensures tree { IfOk result (λ made. made ≡ (compilation bundle.now).dictionary) }
    ensures valid { IfOk result IsValid }
{
    let names = bundle.attribute_names()?;
    let entries = merged_entries(alloc, bundle, names.as_slice())?;
    dictionary_tree(alloc, entries.as_slice())
}

/// The listed types, merged.
pub fn types_of(alloc: Global, bundle: &Bundle) -> Result<Row<TypeEntry>, AllocError>
    ensures types { IfOk result (λ made. made ≡ types_of bundle.now) }
    ensures by_name { IfOk result (IsByName (λ entry. entry.name)) }
    ensures valid { IfOk result (All IsTypeValid) }
{
    let names = bundle.type_names()?;
    merged_types(alloc, bundle, names.as_slice())
}

fn kinds_of(alloc: Global, bundle: &Bundle, types: &[TypeEntry]) -> Result<Row<Kind>, AllocError>
    requires types { types.now ≡ types_of bundle.now }
    requires by_name { IsByName (λ entry. entry.name) types.now }
    ensures kinds { IfOk result (λ made. made ≡ (compilation bundle.now).kinds) }
    ensures by_name { IfOk result (IsByName (λ kind. kind.name)) }
{
    let listed = bundle.type_names()?;
    let names = data_types(alloc, listed)?;
    kinds(alloc, names.as_slice(), types)
}

/// What is printed of the categories, the extensions and the profiles.
#[derive(Drop)]
struct Sections {
    categories: Tree,
    extensions: Tree,
    profiles: Tree,
}

fn sections_of(alloc: Global, bundle: &Bundle) -> Result<Sections, AllocError>
    ensures categories { IfOk result (λ made. made.categories ≡ (compilation bundle.now).categories) }
    ensures extensions { IfOk result (λ made. made.extensions ≡ (compilation bundle.now).extensions) }
    ensures profiles { IfOk result (λ made. made.profiles ≡ (compilation bundle.now).profiles) }
    ensures valid_categories { IfOk result (λ made. IsValid made.categories) }
    ensures valid_extensions { IfOk result (λ made. IsValid made.extensions) }
    ensures valid_profiles { IfOk result (λ made. IsValid made.profiles) }
{
    let categories = categories_of(alloc, bundle)?;
    let extensions = extensions_of(alloc, bundle)?;
    let profiles = profiles_of(alloc, bundle)?;
    Ok(Sections {
        categories,
        extensions,
        profiles,
    })
}

/// What is printed of the merged dictionaries.
#[derive(Drop)]
struct Tables {
    dictionary: Tree,
    types: Tree,
}

fn tables_of(alloc: Global, bundle: &Bundle, types: &[TypeEntry]) -> Result<Tables, AllocError>
    requires types { types.now ≡ types_of bundle.now }
    requires by_name { IsByName (λ entry. entry.name) types.now }
    requires valid { All IsTypeValid types.now }
    ensures dictionary { IfOk result (λ made. made.dictionary ≡ (compilation bundle.now).dictionary) }
    ensures types { IfOk result (λ made. made.types ≡ (compilation bundle.now).types) }
    ensures valid_dictionary { IfOk result (λ made. IsValid made.dictionary) }
    ensures valid_types { IfOk result (λ made. IsValid made.types) }
{
    let dictionary = dictionary_of(alloc, bundle)?;
    let types = types_tree(alloc, types)?;
    Ok(Tables { dictionary, types })
}

fn version_of(alloc: Global, bundle: &Bundle) -> Result<Text, AllocError>
    ensures { IfOk result (λ made. made ≡ (compilation bundle.now).version) }
{
    Text::of(alloc, bundle.version())
}

fn assembled(
    pieces: Row<Shared<Piece>>,
    kinds: Row<Kind>,
    sections: Sections,
    tables: Tables,
    version: Text,
) -> SchemaParts
    ensures { result ≡ record {
      pieces = pieces;
      kinds = kinds;
      categories = sections.categories;
      dictionary = tables.dictionary;
      extensions = sections.extensions;
      profiles = sections.profiles;
      types = tables.types;
      version = version;
    } }
{
    SchemaParts {
        pieces,
        kinds,
        categories: sections.categories,
        dictionary: tables.dictionary,
        extensions: sections.extensions,
        profiles: sections.profiles,
        types: tables.types,
        version,
    }
}

/// What the bundle is compiled to, with these in place of its items. The types are its listed types,
/// merged.
pub fn parts_of(
    alloc: Global,
    bundle: &Bundle,
    types: &[TypeEntry],
    pieces: Row<Shared<Piece>>,
) -> Result<SchemaParts, AllocError>
    requires types { types.now ≡ types_of bundle.now }
    requires by_name { IsByName (λ entry. entry.name) types.now }
    requires valid { All IsTypeValid types.now }
    ensures parts { IfOk result (λ parts. parts ≡ record (compilation bundle.now) { pieces = pieces }) }
    ensures kinds { IfOk result (λ parts. IsByName (λ kind. kind.name) parts.kinds) }
    ensures categories { IfOk result (λ parts. IsValid parts.categories) }
    ensures dictionary { IfOk result (λ parts. IsValid parts.dictionary) }
    ensures extensions { IfOk result (λ parts. IsValid parts.extensions) }
    ensures profiles { IfOk result (λ parts. IsValid parts.profiles) }
    ensures types { IfOk result (λ parts. IsValid parts.types) }
{
    let version = version_of(alloc, bundle)?;
    let kinds = kinds_of(alloc, bundle, types)?;
    let tables = tables_of(alloc, bundle, types)?;
    let sections = sections_of(alloc, bundle)?;
    Ok(assembled(pieces, kinds, sections, tables, version))
}
