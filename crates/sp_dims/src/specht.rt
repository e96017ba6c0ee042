// The hook length formula.
ghost use Rattle.std.specs.Prelude.{◌≡◌, ◌/◌, ◌<◌, ◌≤◌, ◌^◌, IsTrue, map};
ghost use Rattle.std.specs.List.{AllByRecursion};
ghost use Rattle.sp_defs.specs.Node.{in_diagram, hook as hook_of};
ghost use Rattle.sp_module_defs.specs.Dims.{factorial as factorial_of, product, specht_dim as specht_dim_of};
ghost use Rattle.sp_nodes.specs.Nodes.{pair};

use sp_nodes::{Node, hook, nodes};
use sp_partition::Partition;

/// The dimension of the Specht module of `p`. It takes no memory.
pub fn specht_dim(p: &Partition) -> u128
    ensures value { result ≡ specht_dim_of p.now }
    ensures small { result < 2 ^ 127 }
{
    without_hooks(p, factorial(p.degree()), nodes(p).as_slice())
}

// 1 * 2 * .. * n
fn factorial(n: u8) -> u128
    requires { n ≤ 32 }
    ensures value { result ≡ factorial_of n }
    ensures small { result < 2 ^ 127 }
{
    let mut product = 1;
    for factor in 1..n + 1 {
        product *= u128::from(factor);
    }
    product
}

// The number, divided by the hook length of each of these nodes in turn.
fn without_hooks(p: &Partition, number: u128, nodes: &[Node]) -> u128
    requires inside { AllByRecursion (λ node. IsTrue (in_diagram p.now (pair node))) nodes.now }
    ensures value { result ≡ number / product (map (λ node. hook_of p.now (pair node)) nodes.now) }
    ensures small { result ≤ number }
{
    let mut quotient = number;
    for node in nodes {
        quotient /= u128::from(hook(p, *node));
    }
    quotient
}
