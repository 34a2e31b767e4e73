// The words of kinds and deciders.
ghost use Rattle.std.specs.Prelude.{◌≡◌, ◌<◌, ◌++◌, ◌∷◌, [], OnOk, codes, length};
ghost use Rattle.std.specs.Fmt.{decimal, signed_decimal};
ghost use Rattle.stream_model.specs.declared.kind.Kind.{Kind};
ghost use Rattle.blue_lang.specs.Spaced.{spaced};
ghost use Rattle.blue_lang.specs.Functions.{map_words, pred_words};
ghost use Rattle.blue_lang.specs.Kinds.{base_word, policy_word, joining_word, each_words, fan_words, edge_words, stage_words, kind_words, sort_word, set_decider_word, decider_words};

use crate::functions::{expand_word, fold_word, reduce_word, write_map, write_pred};
use crate::words::{
    write_int, write_two, write_word, write_word_count, write_word_counts, write_word_int,
};
use elem_core::function::{MapFn, Pred};
use elem_core::line::Line;
use elem_core::why::{Decider, NoMemory};
use stream_model::kind::{Base, Joining, Kind, Policy};

/// Appends the words of a kind in their one spelling, each behind a space.
pub fn write_kind(out: &mut Vec<u8>, kind: &Kind) -> Result<(), NoMemory>
    ensures { OnOk result (out.new.items ≡ out.old.items ++ spaced (kind_words kind.now)) }
{
    match kind {
        Kind::Lines(file) => write_two(out, b"lines", file.bytes()),
        Kind::Range(first, last) => {
            write_word_int(out, b"range", *first)?;
            write_int(out, *last)
        }
        Kind::Empty(base) => write_two(out, b"empty", base_word(*base)),
        Kind::Failed(base) => write_two(out, b"failed", base_word(*base)),
        Kind::ToLines(file) => write_two(out, b"lines", file.bytes()),
        Kind::Head(file) => write_two(out, b"head", file.bytes()),
        Kind::Last(file) => write_two(out, b"last", file.bytes()),
        Kind::Ignore => write_word(out, b"ignore"),
        _ => write_stage(out, kind),
    }
}

/// Every kind has words, also one that is added: there is no kind whose spelling is empty.
pub fn every_kind_is_spelled()
    ensures { (kind : Kind) → 0 < length (kind_words kind) }
{}

// The stages that a chain may have, and then the others.
fn write_stage(out: &mut Vec<u8>, kind: &Kind) -> Result<(), NoMemory>
    ensures { OnOk result (out.new.items ≡ out.old.items ++ spaced (stage_words kind.now)) }
{
    match kind {
        Kind::Map(f) => write_word_map(out, b"map", f),
        Kind::Filter(p) => write_word_pred(out, b"filter", p),
        Kind::FilterNot(p) => write_word_pred(out, b"filter_not", p),
        Kind::TakeWhile(p) => write_word_pred(out, b"take_while", p),
        Kind::DropWhile(p) => write_word_pred(out, b"drop_while", p),
        Kind::Take(n) => write_word_count(out, b"take", *n),
        Kind::Drop(n) => write_word_count(out, b"drop", *n),
        Kind::Limit(n) => write_word_count(out, b"limit", *n),
        Kind::Grouped(n) => write_word_count(out, b"grouped", u64::from(*n)),
        Kind::MapConcat(x) => write_two(out, b"map_concat", expand_word(*x)),
        Kind::Fold(o) => write_two(out, b"fold", fold_word(*o)),
        Kind::Scan(o) => write_two(out, b"scan", fold_word(*o)),
        Kind::Reduce(r) => write_two(out, b"reduce", reduce_word(*r)),
        _ => write_edge(out, kind),
    }
}

fn write_word_map(out: &mut Vec<u8>, word: &[u8], function: &MapFn) -> Result<(), NoMemory>
    ensures { OnOk result (out.new.items ≡ out.old.items ++ spaced (word.now ∷ map_words function.now)) }
{
    write_word(out, word)?;
    write_map(out, function)
}

fn write_word_pred(out: &mut Vec<u8>, word: &[u8], pred: &Pred) -> Result<(), NoMemory>
    ensures { OnOk result (out.new.items ≡ out.old.items ++ spaced (word.now ∷ pred_words pred.now)) }
{
    write_word(out, word)?;
    write_pred(out, pred)
}

// The stages that no chain may have and that have one input and one output, and then the fans.
fn write_edge(out: &mut Vec<u8>, kind: &Kind) -> Result<(), NoMemory>
    ensures { OnOk result (out.new.items ≡ out.old.items ++ spaced (edge_words kind.now)) }
{
    match kind {
        Kind::Buffer(n, p) => {
            write_word_count(out, b"buffer", u64::from(*n))?;
            write_word(out, policy_word(*p))
        }
        Kind::RecoverNum(z) => {
            write_two(out, b"recover", b"num")?;
            write_int(out, *z)
        }
        Kind::RecoverText(w) => {
            write_two(out, b"recover", b"text")?;
            write_word(out, w.bytes())
        }
        Kind::Valve(switch) => write_two(out, b"valve", switch.bytes()),
        Kind::TripShutdown(switch, n) => write_shutdown(out, switch.bytes(), *n),
        Kind::TripAbort(switch, n) => write_abort(out, switch.bytes(), *n),
        Kind::Plug(name) => write_two(out, b"plug", name.bytes()),
        Kind::Custom(name) => write_two(out, b"custom", name.bytes()),
        Kind::GroupBy(n, f, chain) => {
            write_word_count(out, b"group_by", u64::from(*n))?;
            write_map(out, f)?;
            write_each(out, chain.bytes(), b"merge")
        }
        Kind::SplitWhen(p, chain, j) => write_split(out, b"split_when", p, chain, *j),
        Kind::SplitAfter(p, chain, j) => write_split(out, b"split_after", p, chain, *j),
        _ => write_fan(out, kind),
    }
}

fn write_shutdown(out: &mut Vec<u8>, switch: &[u8], at: u32) -> Result<(), NoMemory>
    ensures { OnOk result (out.new.items ≡ out.old.items ++ spaced (codes "trip" ∷ switch.now ∷ codes "shutdown" ∷ decimal at ∷ [])) }
{
    write_two(out, b"trip", switch)?;
    write_word_count(out, b"shutdown", u64::from(at))
}

fn write_abort(out: &mut Vec<u8>, switch: &[u8], at: u32) -> Result<(), NoMemory>
    ensures { OnOk result (out.new.items ≡ out.old.items ++ spaced (codes "trip" ∷ switch.now ∷ codes "abort" ∷ decimal at ∷ [])) }
{
    write_two(out, b"trip", switch)?;
    write_word_count(out, b"abort", u64::from(at))
}

fn write_split(
    out: &mut Vec<u8>,
    word: &[u8],
    pred: &Pred,
    chain: &Line,
    joining: Joining,
) -> Result<(), NoMemory>
    ensures { OnOk result (out.new.items ≡ out.old.items ++ spaced (word.now ∷ (pred_words pred.now ++ each_words chain.now (joining_word joining)))) }
{
    write_word_pred(out, word, pred)?;
    write_each(out, chain.bytes(), joining_word(joining))?;
    Ok(())
}

fn write_each(out: &mut Vec<u8>, chain: &[u8], joining: &[u8]) -> Result<(), NoMemory>
    ensures { OnOk result (out.new.items ≡ out.old.items ++ spaced (each_words chain.now joining.now)) }
{
    write_two(out, b"each", chain)?;
    write_word(out, joining)
}

// The stages with several inputs or outputs.
fn write_fan(out: &mut Vec<u8>, kind: &Kind) -> Result<(), NoMemory>
    ensures { OnOk result (out.new.items ≡ out.old.items ++ spaced (fan_words kind.now)) }
{
    match kind {
        Kind::Merge(n) => write_word_count(out, b"merge", u64::from(*n)),
        Kind::MergeHub(size, n) => {
            write_word_counts(out, b"merge_hub", u64::from(*size), u64::from(*n))
        }
        Kind::Concat(n) => write_word_count(out, b"concat", u64::from(*n)),
        Kind::Interleave(n, segment) => {
            write_word_counts(out, b"interleave", u64::from(*n), u64::from(*segment))
        }
        Kind::MergeSorted => write_word(out, b"merge_sorted"),
        Kind::Zip => write_word(out, b"zip"),
        Kind::Broadcast(n) => write_word_count(out, b"broadcast", u64::from(*n)),
        Kind::BroadcastHub(size, n) => {
            write_word_counts(out, b"broadcast_hub", u64::from(*size), u64::from(*n))
        }
        Kind::Balance(n) => write_word_count(out, b"balance", u64::from(*n)),
        Kind::Partition(n, f) => {
            write_word_count(out, b"partition", u64::from(*n))?;
            write_map(out, f)
        }
        Kind::Unzip => write_word(out, b"unzip"),
        _ => Ok(()),
    }
}

fn base_word(base: Base) -> &'static [u8]
    ensures { result.now ≡ base_word base }
{
    match base {
        Base::Num => b"num",
        Base::Text => b"text",
    }
}

fn policy_word(policy: Policy) -> &'static [u8]
    ensures { result.now ≡ policy_word policy }
{
    match policy {
        Policy::Backpressure => b"backpressure",
        Policy::DropHead => b"drop_head",
        Policy::DropTail => b"drop_tail",
        Policy::DropBuffer => b"drop_buffer",
        Policy::DropNew => b"drop_new",
        Policy::Fail => b"fail",
    }
}

fn joining_word(joining: Joining) -> &'static [u8]
    ensures { result.now ≡ joining_word joining }
{
    match joining {
        Joining::Merge => b"merge",
        Joining::Concat => b"concat",
    }
}

/// The word that a node's line begins with, by its kind: `source`, `stage` or `sink`.
pub fn sort_word(kind: &Kind) -> &'static [u8]
    ensures { result.now ≡ sort_word kind.now }
{
    match kind {
        Kind::Lines(_) => b"source",
        Kind::Range(_, _) => b"source",
        Kind::Empty(_) => b"source",
        Kind::Failed(_) => b"source",
        Kind::ToLines(_) => b"sink",
        Kind::Head(_) => b"sink",
        Kind::Last(_) => b"sink",
        Kind::Ignore => b"sink",
        _ => b"stage",
    }
}

fn set_decider_word(decider: Decider) -> &'static [u8]
    ensures { result.now ≡ set_decider_word decider }
{
    match decider {
        Decider::Stop => b"stop",
        Decider::Resume => b"resume",
        Decider::Restart => b"restart",
    }
}

/// Appends a decider where one is set, each of its words behind a space.
pub fn write_decider(out: &mut Vec<u8>, decider: Option<Decider>) -> Result<(), NoMemory>
    ensures { OnOk result (out.new.items ≡ out.old.items ++ spaced (decider_words decider)) }
{
    match decider {
        Some(decider) => write_two(out, b"decider", set_decider_word(decider)),
        None => Ok(()),
    }
}
