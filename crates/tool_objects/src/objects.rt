//! The objects of a command's program: one by itself, or several that are joined, by the names of their files and by what the
//! files gave.

ghost use Rattle.std.specs.Prelude.{◌≡◌, ◌+◌, ◌++◌, [], ℕ, List, Option, Some, IfOk, OnOk, length, map, option_map};
ghost use Rattle.cfi_harden.specs.Preparing.{Reads};
ghost use Rattle.tool_common.specs.Reads.{Content, GaveAll};
ghost use Rattle.tool_objects.specs.GivenBytes.{given_by};
ghost use Rattle.tool_objects.specs.Objects.{GaveObjects, names_with, objects_asked};

use cfi_harden::{joined_program, program_of};
use obj_program::Items;
use refusals::Refusal;
use rv_word::{End, NoMemory};
use std::alloc::Global;

/// The names of files that hold objects.
#[derive(Drop)]
pub(crate) enum Objects<'a> {
    /// One object, which is a program by itself.
    Alone(&'a str),
    /// Several that are joined.
    Joined(Vec<&'a str>),
}

/// The bytes of objects.
#[derive(Clone, Copy)]
pub(crate) enum ObjectBytes<'b> {
    Alone(&'b [u8]),
    Joined(&'b [Vec<u8>]),
}

/// Puts names of files, where they are named, behind others.
fn push_others<'a>(
    all: &mut Vec<Option<&'a str>>,
    others: &[Option<&'a str>],
) -> Result<(), NoMemory>
    ensures { OnOk result (map (option_map (λ n. n.now)) all.new.items ≡ map (option_map (λ n. n.now)) all.old.items ++ map (option_map (λ n. n.now)) others.now) }
{
    all.extend_from_slice(others)?;
    Ok(())
}

/// Puts names of files behind others.
fn push_names<'a>(all: &mut Vec<Option<&'a str>>, names: &[&'a str]) -> Result<(), NoMemory>
    ensures { OnOk result (map (option_map (λ n. n.now)) all.new.items ≡ map (option_map (λ n. n.now)) all.old.items ++ map Some (map (λ n. n.now) names.now)) }
{
    for name in names {
        all.push(Some(*name))?;
    }
    Ok(())
}

impl<'a> Objects<'a> {
    /// The names of all files of a command, these and others, in the order in which they are read.
    pub(crate) fn names_with(
        &self,
        alloc: Global,
        others: &[Option<&'a str>],
    ) -> Result<Vec<Option<&'a str>>, NoMemory>
        ensures { IfOk result (λ v. map (option_map (λ n. n.now)) v.items ≡ names_with (objects_asked self.now) (map (option_map (λ n. n.now)) others.now)) }
    {
        let mut names = Vec::new(alloc);
        match self {
            Objects::Alone(object) => {
                names.push(Some(*object))?;
                push_others(&mut names, others)?;
            }
            Objects::Joined(objects) => {
                push_others(&mut names, others)?;
                push_names(&mut names, objects)?;
            }
        }
        Ok(names)
    }

    /// What the files of a command gave, by their objects and the `others` files.
    pub(crate) fn split<'b>(
        &self,
        bytes: &'b [Vec<u8>],
        others: usize,
    ) -> (ObjectBytes<'b>, &'b [Vec<u8>])
        requires { length bytes.now ≡ length (names_with (objects_asked self.now) []) + others }
        ensures count { length result.1.now ≡ others }
        ensures gave { (content : Content) (names : List (Option (List ℕ))) → length names ≡ others
            → GaveAll content (names_with (objects_asked self.now) names) (map (λ b. b.items) bytes.now)
            → GaveObjects content (objects_asked self.now) (given_by result.0) × GaveAll content names (map (λ b. b.items) result.1.now) }
    {
        match self {
            Objects::Alone(_) => (ObjectBytes::Alone(&bytes[0]), &bytes[1..]),
            Objects::Joined(_) => (ObjectBytes::Joined(&bytes[others..]), &bytes[..others]),
        }
    }
}

/// The program of what is given.
pub(crate) fn program_given<'b>(
    alloc: Global,
    given: ObjectBytes<'b>,
) -> Result<Items<'b>, End<Refusal>>
    ensures { Reads (given_by given.entry) result }
{
    match given {
        ObjectBytes::Alone(object) => program_of(alloc, object),
        ObjectBytes::Joined(objects) => joined_program(alloc, objects),
    }
}
