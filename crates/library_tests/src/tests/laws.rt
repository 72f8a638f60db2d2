//! Laws of other crates that `plan_player` passes on.

ghost use Rattle.plan_player.specs.Listening.{ListenersAreRight};
ghost use Rattle.plan_player.specs.Settings.{LastLevelsCount};

use plan_player::laws;

/// A listener that starts before any frame of a run learns the configuration.
fn listener()
    ensures { ListenersAreRight }
{
    laws::listener();
}

/// Between two frames, only the last setting of each contact has an effect.
fn contacts()
    ensures { LastLevelsCount }
{
    laws::contacts();
}

#[test]
fn the_laws_of_listeners_and_contacts_are_passed_on() {
    listener();
    contacts();
}
