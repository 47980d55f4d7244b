// The categories, the extensions and the profiles, as they are printed.
ghost use Rattle.std.specs.Prelude.{◌≡◌, ℕ, List, IfOk, map};
ghost use Rattle.std.specs.Option.{IfSome};
ghost use Rattle.ocsf_lists.specs.ByName.{IsByName};
ghost use Rattle.ocsf_tree.specs.Valid.{IsValid};
ghost use Rattle.ocsf_tree.specs.declared.tree.Tree.TheVariants as tree;
ghost use Rattle.ocsf_bundle.specs.Shown.{shown};
ghost use Rattle.ocsf_bundle.specs.Looks.{Listed, BuiltIn};
ghost use Rattle.ocsf_rules.specs.PrintedSchema.{category_tree, extension_tree, profile_tree, texts_tree};
ghost use Rattle.ocsf_compiler.specs.Sections.{cell_of, part_tree, first_tree, member_at, section_tree};

use ocsf_bundle::{Cell, Part, Shows};
use ocsf_kind::category_uid;
use ocsf_raw::{CategoryEntry, ExtFile, ProfileFile, RawAttr};
use ocsf_schema::{put_field, put_word, put_words};
use ocsf_tree::{Member, Row, Text, Tree};
use std::alloc::{AllocError, Global};

/// A part of the printed schema that prints what cells show first.
#[derive(Clone, Copy, Debug, PartialEq, Eq, Drop)]
pub enum Section {
    Categories,
    Extensions,
    Profiles,
}

fn cell_of(section: Section, name: Text) -> Cell
    ensures { result ≡ cell_of section name }
{
    match section {
        Section::Categories => Cell::Category(name),
        Section::Extensions => Cell::Ext(name),
        Section::Profiles => Cell::Profile(name),
    }
}

fn category_tree(alloc: Global, extension: u32, entry: &CategoryEntry) -> Result<Tree, AllocError>
    ensures tree { IfOk result (λ made. made ≡ category_tree (Listed extension entry.now)) }
    ensures valid { IfOk result IsValid }
{
    let uid = category_uid(extension, entry.uid);
    let mut members = Row::new(alloc);
    put_words(&mut members, "caption", &entry.caption)?;
    put_words(&mut members, "description", &entry.description)?;
    put_field(&mut members, "uid", Some(Tree::Whole(i128::from(uid))))?;
    Ok(Tree::Members(members))
}

/// The category that is built in.
fn other_tree(alloc: Global) -> Result<Tree, AllocError>
    ensures tree { IfOk result (λ made. made ≡ category_tree BuiltIn) }
    ensures valid { IfOk result IsValid }
{
    let mut members = Row::new(alloc);
    put_word(&mut members, "caption", "Uncategorized")?;
    put_field(&mut members, "uid", Some(Tree::Whole(0)))?;
    Ok(Tree::Members(members))
}

fn extension_tree(alloc: Global, file: &ExtFile) -> Result<Tree, AllocError>
    ensures tree { IfOk result (λ made. made ≡ extension_tree file.now) }
    ensures valid { IfOk result IsValid }
{
    let uid = file.uid;
    let mut members = Row::new(alloc);
    put_words(&mut members, "caption", &file.caption)?;
    put_field(&mut members, "uid", Some(Tree::Whole(i128::from(uid))))?;
    put_words(&mut members, "version", &file.version)?;
    Ok(Tree::Members(members))
}

fn entry_names(alloc: Global, entries: &[RawAttr]) -> Result<Tree, AllocError>
    ensures { IfOk result (λ made. made ≡ texts_tree (map (λ entry. entry.name) entries.now)) }
{
    let mut names = Row::with_capacity(alloc, entries.len())?;
    for entry in entries {
        names.push(Tree::Words(entry.name.copy()?))?;
    }
    Ok(Tree::List(names))
}

fn profile_tree(alloc: Global, file: &ProfileFile) -> Result<Tree, AllocError>
    ensures tree { IfOk result (λ made. made ≡ profile_tree file.now) }
    ensures valid { IfOk result IsValid }
{
    let names = entry_names(alloc, file.attributes.as_slice())?;
    let mut members = Row::new(alloc);
    put_field(&mut members, "attributes", Some(names))?;
    put_words(&mut members, "caption", &file.caption)?;
    put_words(&mut members, "description", &file.description)?;
    Ok(Tree::Members(members))
}

/// What is printed of the part.
fn part_tree(alloc: Global, part: Part) -> Result<Option<Tree>, AllocError>
    ensures tree { IfOk result (λ made. made ≡ part_tree (shown part.entry)) }
    ensures valid { IfOk result (λ made. IfSome made IsValid) }
{
    match part {
        Part::Category(extension, entry) => Ok(Some(category_tree(alloc, extension, entry)?)),
        Part::Other => Ok(Some(other_tree(alloc)?)),
        Part::Ext(file) => Ok(Some(extension_tree(alloc, file)?)),
        Part::Profile(file) => Ok(Some(profile_tree(alloc, file)?)),
        _ => Ok(None),
    }
}

fn first_tree<B: Shows>(
    alloc: Global,
    bundle: &B,
    section: Section,
    name: &Text,
) -> Result<Option<Tree>, AllocError>
    ensures tree { IfOk result (λ made. made ≡ first_tree section (B.looks bundle.now) name.now) }
    ensures valid { IfOk result (λ made. IfSome made IsValid) }
{
    let cell = cell_of(section, name.copy()?);
    match bundle.look(&cell, 0) {
        Some(part) => part_tree(alloc, part),
        None => Ok(None),
    }
}

fn member_at<B: Shows>(
    alloc: Global,
    bundle: &B,
    section: Section,
    name: &Text,
) -> Result<Option<Member>, AllocError>
    ensures member { IfOk result (λ made. made ≡ member_at section (B.looks bundle.now) name.now) }
    ensures valid { IfOk result (λ made. IfSome made (λ m. IsValid m.value)) }
{
    match first_tree(alloc, bundle, section, name)? {
        Some(value) => Ok(Some(Member {
            name: name.copy()?,
            value,
        })),
        None => Ok(None),
    }
}

/// What is printed of what stands under these names.
pub fn section_tree<B: Shows>(
    alloc: Global,
    bundle: &B,
    section: Section,
    names: &[Text],
) -> Result<Tree, AllocError>
    requires { IsByName (λ (name : List ℕ). name) names.now }
    ensures tree { IfOk result (λ made. made ≡ section_tree section (B.looks bundle.now) names.now) }
    ensures valid { IfOk result IsValid }
{
    let mut members = Row::with_capacity(alloc, names.len())?;
    for name in names {
        let Some(member) = member_at(alloc, bundle, section, name)? else {
            continue;
        };
        members.push(member)?;
    }
    Ok(Tree::Members(members))
}
