// A list of names, loaded from a file.
ghost use Rattle.std.specs.Prelude.{◌≡◌, ◌<◌, ◌≤◌, true, ◌⊎◌, [], ◌∷◌, ◌++◌, map, length, vec_items, Ok, Err, MatchOption, MatchResult, slice_index_or, position};
ghost use Rattle.fields.specs.declared.fault.Fault.TheVariants.{Memory};
ghost use Rattle.fields.specs.Outcomes.{OneOutcome};
ghost use Rattle.fields.specs.Parts.{field_of, part_of, piece_of, tag_of};
ghost use Rattle.name_list.specs.Names.{same_name, Judged, Lists, ListsNone, Loads, listable, names_format, names_of, number_of};

use crate::name::{has_name_bytes, has_name_length, same_name};
use fields::fault::{Fault, File};
use fields::field::Field;
use fields::reader::Fields;
use std::alloc::{AllocError, Global};
use std::marker::Model;

/// The most names that a list has.
pub const MOST_NAMES: usize = 16;

/// Names numbered from 0, at most 16 of them, no two of them one.
#[derive(Drop, Debug)]
pub struct NameList {
    // Vectors, and no map: there are at most 16, and a name is found by its number as often as by its bytes.
    names: Vec<Vec<u8>>,
    ghost in_order: { listable (names_of names) ≡ true },
}

impl Model for NameList {
    ghost use Rattle.name_list.specs.Names.{Listed, names_of};

    ghost Value = { Listed };

    ghost view = { λ l. record { names = names_of l.names; in_order = l.in_order } };
}

// The index of the first name that is this one. It is inlined, since a call for each letter made the reader of records slower than the
// one in Rust.
#[inline(always)]
fn find_in(names: &[Vec<u8>], name: &[u8]) -> Option<usize>
    ensures { result ≡ position (λ v. same_name v.items name.now) names.now }
{
    names
        .iter()
        .position(|listed| same_name(listed.as_slice(), name))
}

// The name in a field that comes behind these names, or what is wrong with the field.
fn judge<'a>(names: &[Vec<u8>], field: Field<'a>) -> Result<&'a [u8], Fault>
    requires { field ≡ field_of (tag_of field) (part_of field) }
    ensures { MatchResult result (λ n. Judged (map vec_items names.now) (piece_of field.entry) (part_of field.entry).place (Ok n.now)) (λ e. Judged (map vec_items names.now) (piece_of field.entry) (part_of field.entry).place (Err e)) }
{
    let at = File::Names.at(field.part().place);
    let Field::Name(part) = field else {
        return Err(Fault::Tag(at));
    };
    if !has_name_length(part.contents) {
        return Err(Fault::Length(at));
    }
    if names.len() >= MOST_NAMES {
        return Err(Fault::TooMany(at));
    }
    if !has_name_bytes(part.contents) {
        return Err(Fault::Byte(at));
    }
    if find_in(names, part.contents).is_some() {
        return Err(Fault::Repeated(at));
    }
    Ok(part.contents)
}

// One name more.
fn keep_name(names: &mut Vec<Vec<u8>>, name: &[u8], heap: Global) -> Result<(), AllocError>
    ensures { MatchResult result (λ _. names_of names.new ≡ names_of names.old ++ name.now ∷ []) (λ _. names_of names.new ≡ names_of names.old) }
{
    names.push(Vec::from_slice(heap, name)?)?;
    Ok(())
}

// The names that a file lists.
fn read_names(bytes: &[u8], heap: Global) -> Result<Vec<Vec<u8>>, Fault>
    ensures { MatchResult result (λ v. Lists bytes.now (names_of v) × (listable (names_of v) ≡ true)) (λ e. (e ≡ Memory) ⊎ ListsNone bytes.now e) }
{
    let mut fields = Fields::new(File::Names, bytes);
    let mut names = Vec::new(heap);
    while let Some(field) = fields.next()? {
        let name = judge(&names, field)?;
        keep_name(&mut names, name, heap)?;
    }
    if names.is_empty() {
        return Err(Fault::Missing(File::Names.at(bytes.len())));
    }
    Ok(names)
}

impl NameList {
    /// A list with no names.
    pub fn new(heap: Global) -> NameList
        ensures { result.names ≡ [] }
    {
        NameList {
            names: Vec::new(heap),
        }
    }

    /// Takes the names that a file lists in place of its own. A refused load leaves the list as it was.
    pub fn load(&mut self, bytes: &[u8], heap: Global) -> Result<(), Fault>
        ensures loads { Loads bytes.now self.old.names self.new.names result }
        ensures only { OneOutcome names_format bytes.now }
    {
        let names = read_names(bytes, heap)?;
        self.names = names;
        Ok(())
    }

    /// How many names there are.
    pub fn len(&self) -> usize
        ensures count { result ≡ length self.now.names }
        ensures few { result ≤ 16 }
    {
        self.names.len()
    }

    /// The name with this number.
    pub fn name(&self, number: usize) -> Option<&[u8]>
        ensures { MatchOption result (length self.now.names ≤ number) (λ n. (number < length self.now.names) × (n.now ≡ slice_index_or self.now.names number [])) }
    {
        self.names.get(number).map(|name| name.as_slice())
    }

    /// The number of a name, if it is listed.
    pub fn find(&self, name: &[u8]) -> Option<usize>
        ensures { result ≡ number_of self.now.names name.now }
    {
        find_in(&self.names, name)
    }
}
