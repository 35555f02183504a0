// The lines of edges.

ghost use Rattle.std.specs.Prelude.{◌≡◌, ◌++◌, OnOk, codes, if◌then◌else◌};
ghost use Rattle.std.specs.List.{flat_map};
ghost use Rattle.std.specs.Option.{option_to_list};
ghost use Rattle.switch_text.specs.Watches.{edge_after, watch_after};
ghost use Rattle.std.specs.Prelude.{map};
ghost use Rattle.switch_text.specs.Lines as spec;

use crate::edge::Edge;
use crate::watch::Watch;
use itoa::Buffer;
use plc_types::AxisRow;
use std::alloc::AllocError;

// The last word of an edge's line.
fn word_of(on: bool) -> &'static [u8]
    ensures { result.now ≡ if on then codes " on\n" else codes " off\n" }
{
    if on { b" on\n" } else { b" off\n" }
}

// Adds the line of an edge.
#[tactic(auto, using(crate::proofs::EdgeLaws::four_pieces), unfolding(crate::specs::Lines::edge_line))]
fn push_edge(text: &mut Vec<u8>, edge: &Edge) -> Result<(), AllocError>
    ensures { OnOk result (text.new.items ≡ text.old.items ++ spec.edge_line edge.now) }
{
    let mut cycle = Buffer::new();
    text.extend_from_slice(edge.name.bytes())?;
    text.extend_from_slice(b" ")?;
    text.extend_from_slice(cycle.format(edge.cycle).as_bytes())?;
    text.extend_from_slice(word_of(edge.on))
}

// Adds the line of an edge, where there is one.
fn push_some(text: &mut Vec<u8>, edge: Option<Edge>) -> Result<(), AllocError>
    ensures { OnOk result (text.new.items ≡
        text.old.items ++ flat_map spec.edge_line (option_to_list edge)) }
{
    match edge {
        Some(edge) => push_edge(text, &edge),
        None => Ok(()),
    }
}

/// Goes on by the cycle of this number, whose rows these are: each switch, and the lines of their
/// edges there.
#[tactic(auto, using(std::proofs::lemmas::List::Edits::map_over_more))]
pub fn push_cycle(
    watches: &mut [Watch],
    rows: &[AxisRow],
    cycle: u64,
    text: &mut Vec<u8>,
) -> Result<(), AllocError>
    ensures watches { OnOk result (watches.new ≡ map (watch_after rows.now) watches.old) }
    ensures text { OnOk result (text.new.items ≡ text.old.items ++
        flat_map (λ w. flat_map spec.edge_line (option_to_list (edge_after cycle rows.now w)))
        watches.old) }
{
    for watch in watches.iter_mut() {
        let edge = watch.go_on(rows, cycle);
        push_some(text, edge)?;
    }
    Ok(())
}
