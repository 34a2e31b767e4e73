// One round: what nodes would fix, what is fixed then, and which nodes are to be looked at next.
ghost use Rattle.std.specs.Prelude.{◌≡◌, ◌<◌, ◌≤◌, ℕ, List, [], ◌∷◌, ◌++◌, Option, IfOk, OnOk, slice_get, length, vec_len, ◌==◌, true, Some, None, is_none};
ghost use Rattle.std.specs.Option.{option_or};
ghost use Rattle.stream_model.specs.Graph.{Edge};
ghost use Rattle.blue_names.specs.Links.{wires_of_links};
ghost use Rattle.blue_names.specs.First.{when};
ghost use Rattle.blue_names.specs.Outs.{IsOuts};
ghost use Rattle.blue_types.specs.Library.{IsKnown};
ghost use Rattle.blue_types.specs.Net.{HasFirstWires, type_at};
ghost use Rattle.blue_names.specs.Members.{is_in};
ghost use Rattle.blue_types.specs.News.{AreNews, RestsOn, AreReached, AreBelow, news_at};
ghost use Rattle.blue_types.specs.Would.{would};

use crate::attempts::fixes_at;
use crate::library::Library;
use crate::net::{Net, type_of};
use blue_names::links::NumberedWire;
use blue_names::outs::{row_of, target_of};
use elem_core::elem_type::ElemType;
use elem_core::why::NoMemory;
use std::alloc::Global;

/// A type that a node fixes.
#[derive(Drop)]
pub struct Fixed {
    /// The number of the node.
    pub node: usize,
    /// The type.
    pub fixed: ElemType,
}

/// Adds what a node would fix, where its type is not fixed yet.
fn add_news(
    alloc: Global,
    library: &Library<'_>,
    net: &Net<'_>,
    types: &[Option<ElemType>],
    node: usize,
    news: &mut Vec<Fixed>,
) -> Result<(), NoMemory>
    requires known { IsKnown library.now }
    requires wired { HasFirstWires net.now }
    ensures news { (front : List ℕ) → AreNews (type_at types.now) (would library.now net.now (type_at types.now)) front news.old.items
        → OnOk result (AreNews (type_at types.now) (would library.now net.now (type_at types.now)) (front ++ node ∷ []) news.new.items) }
    ensures below { AreBelow (length net.now.nodes.now) news.old.items → OnOk result (AreBelow (length net.now.nodes.now) news.new.items) }
{
    if type_of(types, node).is_some() {
        return Ok(());
    }
    match fixes_at(alloc, library, net, types, node)? {
        Some(fixed) => {
            news.push(Fixed { node, fixed })?;
            Ok(())
        }
        None => Ok(()),
    }
}

/// What the nodes of a list would fix.
pub fn news_of(
    alloc: Global,
    library: &Library<'_>,
    net: &Net<'_>,
    types: &[Option<ElemType>],
    front: &[usize],
) -> Result<Vec<Fixed>, NoMemory>
    requires known { IsKnown library.now }
    requires wired { HasFirstWires net.now }
    ensures news { IfOk result (λ news. AreNews (type_at types.now) (would library.now net.now (type_at types.now)) front.now news.items) }
    ensures below { IfOk result (λ news. AreBelow (length net.now.nodes.now) news.items) }
{
    let mut news = Vec::new(alloc);
    for node in front {
        add_news(alloc, library, net, types, *node, &mut news)?;
    }
    Ok(news)
}

/// Fixes the type of a node, where it is not fixed yet, and says whether it was not.
fn put_one(alloc: Global, types: &mut [Option<ElemType>], fixed: &Fixed) -> Result<bool, NoMemory>
    requires { fixed.now.node < length types.old }
    ensures types { (i : ℕ) → OnOk result (type_at types.new i ≡ option_or (type_at types.old i) (when (fixed.now.node == i) fixed.now.fixed)) }
    ensures free { IfOk result (λ free. free ≡ is_none (type_at types.old fixed.now.node)) }
{
    if types[fixed.node].is_some() {
        return Ok(false);
    }
    types[fixed.node] = Some(fixed.fixed.copy(alloc)?);
    Ok(true)
}

// Choice: docs/DECISIONS.md#targets-once
/// Adds the nodes to which the wires out of a node lead.
fn add_targets(
    links: &[NumberedWire],
    outs: &[Vec<usize>],
    node: usize,
    front: &mut Vec<usize>,
) -> Result<(), NoMemory>
    requires { IsOuts outs.now (wires_of_links links.now) }
    ensures kept { (q : ℕ) → is_in q front.old.items ≡ true → OnOk result (is_in q front.new.items ≡ true) }
    ensures added { (i : ℕ) (w : Edge) → slice_get (wires_of_links links.now) i ≡ Some w → w.from ≡ node → OnOk result (is_in w.to front.new.items ≡ true) }
{
    for i in row_of(outs, node) {
        if let Some(target) = target_of(links, *i) {
            front.push(target)?;
        }
    }
    Ok(())
}

/// Fixes the type of a node, where it is not fixed yet, and then adds the nodes to which wires lead from it.
fn fix(
    alloc: Global,
    links: &[NumberedWire],
    outs: &[Vec<usize>],
    types: &mut [Option<ElemType>],
    fixed: &Fixed,
    front: &mut Vec<usize>,
) -> Result<(), NoMemory>
    requires below { fixed.now.node < length types.old }
    requires outs { IsOuts outs.now (wires_of_links links.now) }
    ensures types { (i : ℕ) → OnOk result (type_at types.new i ≡ option_or (type_at types.old i) (when (fixed.now.node == i) fixed.now.fixed)) }
    ensures kept { (q : ℕ) → is_in q front.old.items ≡ true → OnOk result (is_in q front.new.items ≡ true) }
    ensures added { type_at types.old fixed.now.node ≡ None → (i : ℕ) (w : Edge) → slice_get (wires_of_links links.now) i ≡ Some w → w.from ≡ fixed.now.node
        → OnOk result (is_in w.to front.new.items ≡ true) }
{
    if put_one(alloc, types, fixed)? {
        add_targets(links, outs, fixed.node, front)?;
        return Ok(());
    }
    Ok(())
}

/// Fixes the types of the nodes that have news, and gives the nodes to which wires lead from those that had no type.
fn fix_all(
    alloc: Global,
    links: &[NumberedWire],
    outs: &[Vec<usize>],
    types: &mut [Option<ElemType>],
    news: &[Fixed],
) -> Result<Vec<usize>, NoMemory>
    requires below { AreBelow (length types.old) news.now }
    requires outs { IsOuts outs.now (wires_of_links links.now) }
    ensures types { (i : ℕ) → OnOk result (type_at types.new i ≡ option_or (type_at types.old i) (news_at news.now i)) }
    ensures reached { IfOk result (λ front. AreReached (wires_of_links links.now) (type_at types.old) news.now front.items) }
{
    let mut front = Vec::new(alloc);
    for fixed in news {
        fix(alloc, links, outs, types, fixed, &mut front)?;
    }
    Ok(front)
}

/// One round: it looks at the nodes of a list alone, and answers those that the next round is to look at.
pub fn types_round(
    alloc: Global,
    library: &Library<'_>,
    net: &Net<'_>,
    outs: &[Vec<usize>],
    types: &mut [Option<ElemType>],
    front: &[usize],
) -> Result<Vec<usize>, NoMemory>
    requires known { IsKnown library.now }
    requires wired { HasFirstWires net.now }
    requires outs { IsOuts outs.now (wires_of_links net.now.links.now) }
    requires length { length types.old ≡ length net.now.nodes.now }
    requires rests { RestsOn (type_at types.old) (would library.now net.now (type_at types.old)) front.now }
    ensures next { (i : ℕ) → OnOk result (type_at types.new i ≡ option_or (type_at types.old i) (would library.now net.now (type_at types.old) i)) }
    ensures rests { IfOk result (λ next. RestsOn (type_at types.new) (would library.now net.now (type_at types.new)) next.items) }
{
    let news = news_of(alloc, library, net, types, front)?;
    let next = fix_all(alloc, net.links, outs, types, &news)?;
    Ok(next)
}
