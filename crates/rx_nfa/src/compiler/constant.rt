//! The NFAs that match always and never.
ghost use Rattle.std.specs.Prelude.{[], ◌∷◌, IfOk};
ghost use Rattle.rx_model.specs.Expression.{empty};
ghost use Rattle.rx_nfa.specs.Compiled.{IsCompiled};
ghost use Rattle.rx_nfa.specs.Config.{nothing_set};

use crate::compiler::Compiler;
use crate::nfa::NFA;
use rx_hir::Hir;
use rx_search::Memory;
use std::alloc::Global;

impl NFA {
    /// The NFA of the empty pattern, by the default configuration: it matches everywhere.
    pub fn always_match(alloc: Global) -> Result<NFA, Memory>
        ensures { IfOk result (IsCompiled nothing_set (empty ∷ [])) }
    {
        let exprs = [Hir::empty()];
        by_default(alloc, &exprs)
    }

    /// The NFA of no patterns, by the default configuration: it matches nowhere.
    pub fn never_match(alloc: Global) -> Result<NFA, Memory>
        ensures { IfOk result (IsCompiled nothing_set []) }
    {
        by_default(alloc, &[])
    }
}

/// The NFA of expressions that are few enough, by the default configuration.
fn by_default(alloc: Global, exprs: &[Hir]) -> Result<NFA, Memory>
    ensures { IfOk result (IsCompiled nothing_set exprs.now) }
{
    match Compiler::new().build_many_from_hir(alloc, exprs) {
        Ok(nfa) => Ok(nfa),
        Err(_) => Err(Memory),
    }
}
