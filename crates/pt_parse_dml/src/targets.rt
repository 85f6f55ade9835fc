ghost use Rattle.std.specs.Prelude.{◌≡◌, ◌+◌, ◌≤◌, length, drop, Some, IfOk};
ghost use Rattle.pt_parse_expr.specs.Placing.{Reaches, Reads};
ghost use Rattle.pt_parse_ddl.specs.Steps as steps;
ghost use Rattle.pt_parse_dml.specs.RowReader as spec;

use pt_ast::Idents;
use pt_parse_ddl::{Rule, column_names, name, optional};
use pt_parse_expr::{Mark, Reading, Reserved, Symbol, peek};
use pt_value::Ident;
use std::alloc::Global;

/// The table that a statement speaks of, and those of its partitions that are named.
#[derive(Drop)]
pub(crate) struct Target {
    pub(crate) table: Ident,
    pub(crate) parts: Option<Idents>,
}

/// PARTITION, and the names of partitions in parentheses.
struct PartitionsRule;

impl Rule<Idents> for PartitionsRule {
    ghost reading = { spec.partitions };

    #[tactic(auto, unfolding(crate::specs::RowReader::partitions))]
    fn read(alloc: Global, symbols: &[Symbol], at: usize) -> Reading<Idents> {
        match peek(symbols, at) {
            Some(Symbol::Fixed(Mark::Other(Reserved::Partition))) => column_names(
                alloc,
                symbols,
                at + 1,
            ),
            _ => Ok(None),
        }
    }
}

/// A table, and the partitions of it that are named.
#[tactic(auto, unfolding(crate::specs::RowReader::target))]
pub(crate) fn read_target(alloc: Global, symbols: &[Symbol], at: usize) -> Reading<Target>
    requires { at ≤ length symbols.now }
    ensures reads { Reads symbols.now result (spec.target (drop at symbols.now)) }
    ensures place { Reaches (at + 1) symbols.now result }
{
    let Some((table, next)) = name(symbols, at) else {
        return Ok(None);
    };
    let (parts, next) = optional::<Idents, PartitionsRule>(alloc, symbols, next)?;
    Ok(Some((Target { table, parts }, next)))
}
