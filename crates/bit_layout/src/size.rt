//! How many nodes a window may need.

ghost use Rattle.std.specs.Prelude.{◌≡◌, ◌≤◌, max, All};
ghost use Rattle.term_core.specs.Firing.{node_parameters};
ghost use Rattle.other_abstract.specs.Making.{IsMade, most_parameters};

use other_abstract::machine::AbstractMachine;
use term_core::machine::TermRule;
use term_core::value::Value;

/// How many parameters of a rule are nodes, where they are at most three.
fn node_parameters(rule: &TermRule) -> u8
    requires { node_parameters rule.now ≤ 3 }
    ensures { result ≡ node_parameters rule.now }
{
    let mut count: u8 = 0;
    for value in rule.values.as_slice() {
        if let Value::Node(_) = value {
            count = count.saturating_add(1);
        }
    }
    count
}

/// The most node parameters that one of these has.
fn most_parameters(rules: &[TermRule]) -> u8
    requires { All (λ r. node_parameters r ≤ 3) rules.now }
    ensures most { result ≡ most_parameters rules.now }
    ensures few { result ≤ 3 }
{
    let mut most: u8 = 0;
    for rule in rules {
        most = most.max(node_parameters(rule));
    }
    most
}

/// The most node parameters that a rule or a start has: as many fired nodes a window has at most.
pub fn most_nodes(machine: &AbstractMachine) -> u8
    requires { IsMade machine.now }
    ensures most { result ≡ max (most_parameters machine.now.machine.starts) (most_parameters machine.now.machine.rules) }
    ensures few { result ≤ 3 }
{
    let starts = most_parameters(machine.machine().starts.as_slice());
    let rules = most_parameters(machine.machine().rules.as_slice());
    starts.max(rules)
}
