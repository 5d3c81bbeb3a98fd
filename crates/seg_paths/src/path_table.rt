//! The paths so far, each with a number.
ghost use Rattle.std.specs.Prelude.{◌≡◌, ◌<◌, ◌^◌, [], ◌∷◌, ◌++◌, Some, true, false, length, slice_get, IfOk, OnErr};
ghost use Rattle.std.specs.List.{IsDistinct, list_any};
ghost use Rattle.std.specs.Str.{bytes_eq};
ghost use Rattle.seg_column_format.specs.CompositeKeys.{asked};
ghost use Rattle.seg_common.specs.JsonPaths.{written_key};
ghost use Rattle.seg_model.specs.DocumentCheck.{has_no_zero};
ghost use Rattle.seg_paths.specs.Nodes.{IsPart, node_eq};
ghost use Rattle.seg_paths.specs.Ranks.{AreRanks};
ghost use Rattle.seg_paths.specs.Paths.{Extends, HaveNoZero, IsAbove, StepsUp, below, number_of};

use crate::cut::first_cut;
use crate::node::{PathNode, push_reversed};
use crate::ranks::node_ranks;
use indexmap::IndexSet;
use seg_column_format::CompositeKeyParts;
use std::alloc::{AllocError, Global};
use std::marker::Model;

/// Distinct paths, without a byte 0. The number of a path is its place among them, in the order in which they came;
/// with a path come those that it is below. More than 2^32 count as out of memory.
#[derive(Drop)]
pub struct PathTable {
    pub(crate) nodes: IndexSet<PathNode>,
}

impl Model for PathTable {
    ghost use Rattle.std.specs.Prelude.{◌≤◌, ◌^◌, ℕ, List, [], length};
    ghost use Rattle.std.specs.List.{IsDistinct};
    ghost use Rattle.std.specs.Str.{bytes_eq};
    ghost use Rattle.seg_paths.specs.Nodes.{AreSound, paths_with};

    ghost Value = { List (List ℕ) };

    ghost view = { λ t. paths_with [] t.nodes.keys };

    ghost invariant = { λ t. (length t.nodes.keys ≤ 2 ^ 32)
        × AreSound [] t.nodes.keys × IsDistinct bytes_eq (paths_with [] t.nodes.keys) };
}

impl PathTable {
    pub fn new(alloc: Global) -> PathTable
        ensures { result ≡ [] }
    {
        PathTable {
            nodes: IndexSet::new(alloc),
        }
    }

    /// How many paths there are.
    pub fn len(&self) -> usize
        ensures length { result ≡ length self.now }
        ensures distinct { IsDistinct bytes_eq self.now }
        ensures no_zero { HaveNoZero self.now }
    {
        self.nodes.len()
    }

    /// The rank of each path, by its number: its place in the order of terms, where a byte 0 follows each path. It
    /// costs the bytes of the parts times a logarithm, and never those of whole paths.
    pub fn ranks(&self, alloc: Global) -> Result<Vec<u32>, AllocError>
        ensures { IfOk result (λ ranks. AreRanks self.now ranks.items) }
    {
        node_ranks(alloc, self.nodes.as_slice())
    }

    /// The path with a number.
    pub fn path_at(&self, alloc: Global, number: u32) -> Result<Vec<u8>, AllocError>
        requires { number < length self.now }
        ensures { IfOk result (λ path. slice_get self.now number ≡ Some path.items) }
    {
        let mut reversed = Vec::new(alloc);
        let mut place = Some(number);
        while let Some(at) = place {
            place = self.push_reversed(alloc, at, &mut reversed)?;
        }
        reversed.reverse();
        Ok(reversed)
    }

    /// Adds what a path adds to the one above it, from its end on. The number of that one.
    fn push_reversed(
        &self,
        alloc: Global,
        number: u32,
        out: &mut Vec<u8>,
    ) -> Result<Option<u32>, AllocError>
        requires { number < length self.now }
        ensures { IfOk result (λ above. StepsUp self.now number above out.old.items out.new.items) }
    {
        let nodes = self.nodes.as_slice();
        let node = &nodes[number as usize];
        push_reversed(alloc, node, out)?;
        Ok(node.head())
    }

    /// The number of the empty path, which a value has that is below no key.
    pub fn add_root(&mut self, alloc: Global) -> Result<u32, AllocError>
        ensures extends { Extends self.old self.new }
        ensures number { IfOk result (λ number. number_of self.new [] ≡ Some number) }
    {
        self.add_part(alloc, None, &[])
    }

    /// The number of the path of a key below the path with a number, or at the top. Paths that come stay, even where
    /// memory runs out.
    pub fn add_key(
        &mut self,
        alloc: Global,
        above: Option<u32>,
        expand_dots: bool,
        key: &str,
    ) -> Result<u32, AllocError>
        requires above { IsAbove self.old above }
        requires key { has_no_zero key.now ≡ true }
        ensures extends { Extends self.old self.new }
        ensures number { IfOk result (λ number. number_of self.new (below self.old above
            (written_key expand_dots key.now)) ≡ Some number) }
    {
        let mut place = above;
        let mut rest = key.as_bytes();
        while let Some(end) = first_cut(expand_dots, rest) {
            let (part, _) = rest.split_at(end);
            let number = self.add_part(alloc, place, part)?;
            place = Some(number);
            let (_, after) = rest.split_at(end + 1);
            rest = after;
        }
        self.add_part(alloc, place, rest)
    }

    /// The number of the path of a part.
    fn add_part(
        &mut self,
        alloc: Global,
        above: Option<u32>,
        part: &[u8],
    ) -> Result<u32, AllocError>
        requires above { IsAbove self.old above }
        requires part { IsPart part.now }
        ensures extends { Extends self.old self.new }
        ensures number { IfOk result (λ number. number_of self.new (below self.old above part.now) ≡ Some number) }
    {
        let node = CompositeKeyParts {
            head: above,
            bytes: part,
        };
        let Some(number) = self.nodes.get_index_of(node) else {
            return push_node(&mut self.nodes, alloc, node);
        };
        Ok(number as u32)
    }
}

/// Adds a node that is not among these. Its place.
fn push_node(
    nodes: &mut IndexSet<PathNode>,
    alloc: Global,
    node: CompositeKeyParts<'_, Option<u32>>,
) -> Result<u32, AllocError>
    requires { list_any (node_eq (asked node)) nodes.old.keys ≡ false }
    ensures ok { IfOk result (λ number. (number ≡ length nodes.old.keys) × (number < 2 ^ 32)
        × (nodes.new.keys ≡ nodes.old.keys ++ asked node.entry ∷ [])) }
    ensures err { OnErr result (nodes.new.keys ≡ nodes.old.keys) }
{
    let Ok(number) = u32::try_from(nodes.len()) else {
        return Err(AllocError);
    };
    let copy = PathNode::copy_of(alloc, node)?;
    let Ok(_) = nodes.insert(copy) else {
        return Err(AllocError);
    };
    Ok(number)
}
