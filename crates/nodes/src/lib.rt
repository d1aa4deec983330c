// The nodes of a search over partial patterns: verdicts, and a node's first X. What a node says is no matter here.
#![tactic(auto)]

ghost use Rattle.std.specs.Prelude.{◌≡◌};
ghost use Rattle.nodes.specs.Node.{first_x};

// What a search finds, each with its number of nodes.
#[derive(Clone, Copy, Debug, PartialEq, Eq)]
pub enum Verdict {
    Test(u64),
    Redundant(u64),
    GivenUp(u64),
}

// The place of the first X, or the length.
pub fn first_x(node: &[u8]) -> usize
    ensures { result ≡ first_x node.now }
{
    node.iter()
        .position(|&value| value == 2)
        .unwrap_or(node.len())
}
