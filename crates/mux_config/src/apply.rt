//! Applying an edit.

ghost use Rattle.std.specs.Prelude.{◌≡◌, None};
ghost use Rattle.mux_config.specs.Edits.{Edits, edited, edit_fault, changed};

use crate::edit::Edit;
use crate::fault::EditFault;
use crate::store::Store;

impl Edit {
    /// Applies the edit. A refused edit returns the first of its faults, in the order that the
    /// method of [`Store`] states, and changes nothing.
    pub fn apply<S: Store>(self, store: &mut S) -> Result<(), EditFault>
        ensures { Edits (S.content store.old) (S.content store.new)
            (edited self (S.content store.old)) result }
    {
        match self {
            Edit::AddSub(sub) => store.add_sub(sub.get()),
            Edit::DropSub(id) => store.drop_sub(id),
            Edit::MoveSub { id, start } => store.move_sub(id, start.get()),
            Edit::RateSub { id, kbits } => store.rate_sub(id, kbits),
            Edit::AddService(sid) => store.add_service(sid),
            Edit::DropService(sid) => store.drop_service(sid),
            Edit::AddComponent { sid, component } => store.add_component(sid, component),
            Edit::DropComponent { sid, carrier } => store.drop_component(sid, carrier),
            Edit::AddPacket(packet) => store.add_packet(packet),
            Edit::DropPacket(scid) => store.drop_packet(scid),
        }
    }

    /// [`Edit::apply`] if there is no fault.
    pub fn apply_known<S: Store>(self, store: &mut S)
        requires { edit_fault self (S.content store.old) ≡ None }
        ensures { S.content store.new ≡ changed self (S.content store.old) }
    {
        match self {
            Edit::AddSub(sub) => store.add_sub_known(sub.get()),
            Edit::DropSub(id) => store.drop_sub_known(id),
            Edit::MoveSub { id, start } => store.move_sub_known(id, start.get()),
            Edit::RateSub { id, kbits } => store.rate_sub_known(id, kbits),
            Edit::AddService(sid) => store.add_service_known(sid),
            Edit::DropService(sid) => store.drop_service_known(sid),
            Edit::AddComponent { sid, component } => store.add_component_known(sid, component),
            Edit::DropComponent { sid, carrier } => store.drop_component_known(sid, carrier),
            Edit::AddPacket(packet) => store.add_packet_known(packet),
            Edit::DropPacket(scid) => store.drop_packet_known(scid),
        }
    }
}
