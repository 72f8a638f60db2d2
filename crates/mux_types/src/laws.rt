//! Laws that hold for all sets, whatever represents them.

ghost use Rattle.mux_types.specs.Sets.{HasOneList, WithAdds, WithoutTakes, ChangedReplaces};

use crate::sorted_table::Keyed;

/// The laws of sets: a list in ascending order of its keys is a finite set, and the functions by
/// which edits are defined add a member to it, remove one and replace one. The function does
/// nothing; its contract is the laws.
pub fn sets<T: Keyed>()
    ensures one_list { HasOneList T.key }
    ensures adds { WithAdds T.key }
    ensures takes { WithoutTakes T.key }
    ensures replaces { ChangedReplaces T.key }
{}
