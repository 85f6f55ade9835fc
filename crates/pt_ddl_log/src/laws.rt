//! Theorems on clean chains. The functions do nothing.
ghost use Rattle.pt_ddl_log.specs.Laws.{OneActEach, InAnyOrder};

/// A name becomes what the one act of a clean chain makes of it in which it stands; any other name stays.
pub fn one_act_each()
    ensures { OneActEach }
{}

/// The acts of a clean chain make the same of each name in any order.
pub fn in_any_order()
    ensures { InAnyOrder }
{}
