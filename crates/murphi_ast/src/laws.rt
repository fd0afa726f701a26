//! Laws about the meaning of protocols. Each is the contract of a function that does nothing.
ghost use Rattle.murphi_ast.specs.declared.rule.Protocol.{Protocol};
ghost use Rattle.murphi_ast.specs.Safety.{IsInductive, IsSafe};

/// What is checked for one start and one step holds of every run: an inductive protocol is safe.
pub fn inductive_is_safe()
    ensures { (p : Protocol) → IsInductive p → IsSafe p }
{}
