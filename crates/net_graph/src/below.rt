// The lists of a graph.
ghost use Rattle.std.specs.Prelude.{◌<◌, length};
ghost use Rattle.net_graph.specs.Graph.{HasList};

use nl_base::Seq;

/// The numbers below a number.
pub(crate) fn numbers_below(graph: &[Seq<u32>], number: u32) -> &[u32]
    requires { number < length graph.now }
    ensures { HasList graph.now number result.now }
{
    graph[number as usize].items()
}
