//! One touch as it is kept, and its links.

ghost use Rattle.std.specs.Prelude.{◌≡◌, ℕ, suc, ◌≤◌, ◌<◌, length, slice_get, Some, None, MatchOption, IfSome, option_map};
ghost use Rattle.version_chains.specs.Jumps as jumps;
ghost use Rattle.version_chains.specs.Jumps.{AreJumps, IsBack, StandsAt, links_behind, node_at};
ghost use Rattle.marks.specs.Placed.{most};
ghost use Rattle.version_chains.specs.declared.node.Node.{Node};

/// A touch: its timestamp, the number of its tuple, the place of the touch of the same tuple before it, and whether it
/// adds.
///
/// `jump` is the place of one of the touches of the tuple before it, so that a walk by jumps is short: the first touch
/// of a tuple jumps to itself, and each other to where the second jump from `older` leads, where the two jumps from
/// there are equally long, else to `older`. A jump of the rank n passes to the touch 2^n - 1 before, so jumps of one
/// rank are equally long. `depth` counts the touches of the tuple before it, as far as 16 bits go.
#[derive(Drop)]
pub struct Node {
    pub at: u64,
    pub tuple: u32,
    pub older: u32,
    pub jump: u32,
    pub depth: u16,
    pub rank: u8,
    pub live: bool,
}

/// The jump of a touch, its rank, and how many touches of the tuple stand before it.
#[derive(Clone, Copy, Drop)]
pub struct Links {
    pub jump: u32,
    pub rank: u8,
    pub depth: u16,
}

/// The touch at a place, which counts from 1.
pub fn at_place(nodes: &[Node], place: u32) -> Option<&Node>
    ensures stands { MatchOption result ((i : ℕ) → place ≡ suc i → length nodes.now ≤ i)
        (λ n. StandsAt nodes.now place n.now) }
    ensures exact { option_map (λ n. n.now) result ≡ node_at nodes.now place }
{
    if place == 0 {
        return None;
    }
    nodes.get((place - 1) as usize)
}

/// Where the second jump from a touch leads, where it is as long as the first.
fn second_jump(nodes: &[Node], node: &Node) -> Option<u32>
    ensures back { AreJumps nodes.now → (i : ℕ) → slice_get nodes.now i ≡ Some node.now
        → IfSome result (λ place. IsBack nodes.now node.now.tuple i place) }
    ensures exact { result ≡ jumps.second_jump nodes.now node.now }
{
    let first = at_place(nodes, node.jump)?;
    if node.rank == first.rank {
        Some(first.jump)
    } else {
        None
    }
}

/// The links of the next touch of a tuple, whose touch before it stands at the place `older`.
pub fn next_links(nodes: &[Node], older: u32) -> Links
    requires { length nodes.now < most }
    ensures first { older ≡ 0 → result.jump ≡ suc (length nodes.now) }
    ensures later { AreJumps nodes.now → (i : ℕ) (n : Node) → older ≡ suc i → slice_get nodes.now i ≡ Some n
        → IsBack nodes.now n.tuple i result.jump }
    ensures exact { result ≡ links_behind nodes.now older (node_at nodes.now older) }
{
    let Some(node) = at_place(nodes, older) else {
        return Links {
            jump: nodes.len() as u32 + 1,
            rank: 0,
            depth: 0,
        };
    };
    let depth = node.depth.saturating_add(1);
    match second_jump(nodes, node) {
        Some(jump) => Links {
            jump,
            rank: node.rank.saturating_add(1),
            depth,
        },
        None => Links {
            jump: older,
            rank: 1,
            depth,
        },
    }
}
