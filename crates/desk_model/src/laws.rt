//! Laws of the commands, each on a function that does nothing.
ghost use Rattle.std.specs.Prelude.{◌≡◌, ℕ, ◌≤◌, Bool, false, Err, IfOk, IfErr};
ghost use Rattle.mud_base.specs.declared.addr.Addr.{Addr};
ghost use Rattle.table_model.specs.declared.bind.Class.{Class};
ghost use Rattle.table_model.specs.declared.bind_fault.BindFault.TheVariants.{NotBound};
ghost use Rattle.table_model.specs.Binds.{Binds, IsSoundBinds, is_class};
ghost use Rattle.table_model.specs.BindCommands.{unbind_class_step};
ghost use Rattle.desk_model.specs.declared.command.Command.{Command};
ghost use Rattle.desk_model.specs.Refusals.{is_want_of_memory};
ghost use Rattle.desk_model.specs.DeskTables.{DeskTables, IsSound, HaveSameLists};
ghost use Rattle.desk_model.specs.Commands.{IsCommand, TellsChange, stamped, command_step};

/// What holds of every command on a sound desk.
pub fn commands_keep_the_desk()
    // It keeps the desk sound, at a moment that is none after the last one.
    ensures sound { (desk : DeskTables) → IsSound desk → (command : Command) (now : ℕ)
        → IsCommand command → now ≤ 253402300799
        → IfOk (command_step desk now command) (λ after. IsSound after.desk) }
    // It says truly whether a list changes, and the stamp is its moment exactly where one does.
    ensures told { (desk : DeskTables) → IsSound desk → (command : Command) (now : ℕ)
        → IsCommand command → IfOk (command_step desk now command) (TellsChange desk now) }
    // To set the stamp leaves every list.
    ensures stamp { (changes : Bool) (now : ℕ) (desk : DeskTables)
        → HaveSameLists desk (stamped changes now desk) }
    // It is never refused for want of memory.
    ensures spoken { (desk : DeskTables) (command : Command) (now : ℕ)
        → IfErr (command_step desk now command) (λ refusal. is_want_of_memory refusal ≡ false) }
{}

/// What isn't a class has no address: so a command that takes one away from it is refused.
pub fn no_class_is_unbound()
    ensures { (binds : Binds) → IsSoundBinds binds → (class : Class) (a : Addr)
        → is_class class ≡ false → unbind_class_step class a binds ≡ Err NotBound }
{}
