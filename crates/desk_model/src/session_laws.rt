//! Laws of sessions and of what rules in them, each on a function that does nothing.
ghost use Rattle.std.specs.Prelude.{◌≡◌, ℕ, ◌≤◌, true, IsTrue, List, [], ◌∷◌, ◌++◌, Some, Result};
ghost use Rattle.std.specs.List.{AllByRecursion};
ghost use Rattle.mud_base.specs.declared.memory.Memory as want;
ghost use Rattle.mud_base.specs.declared.packet.Direction.{Direction};
ghost use Rattle.mud_base.specs.declared.packet.Fields.{Fields};
ghost use Rattle.acl_model.specs.Changes.{same_spot};
ghost use Rattle.acl_model.specs.Policies.{policy_in};
ghost use Rattle.base_rows.specs.Changes.{are_apart};
ghost use Rattle.table_model.specs.declared.thing.Thing.{Thing};
ghost use Rattle.table_model.specs.declared.segment.Segment.{Segment};
ghost use Rattle.table_model.specs.History.{begun_of};
ghost use Rattle.frame_view.specs.declared.views.Frame.TheVariants.{Packet};
ghost use Rattle.frame_view.specs.Frame.{frame_of};
ghost use Rattle.frame_view.specs.PacketFrame.{PacketFrame};
ghost use Rattle.packet_judge.specs.declared.verdict.Verdict.{Verdict};
ghost use Rattle.packet_judge.specs.Verdicts.{endpoints_of, endpoint_ruling, is_managed, rulings_of, forwarded};
ghost use Rattle.desk_model.specs.declared.command.Command.{Command};
ghost use Rattle.desk_model.specs.declared.reply.Refusal.{Refusal};
ghost use Rattle.desk_model.specs.declared.reply.Reply.{Reply};
ghost use Rattle.desk_model.specs.declared.reply.Reply.TheVariants.{Refused};
ghost use Rattle.desk_model.specs.DeskTables.{DeskTables, IsSound};
ghost use Rattle.desk_model.specs.Commands.{IsCommand};
ghost use Rattle.desk_model.specs.Forwarding.{is_forwarded_by};
ghost use Rattle.desk_model.specs.Verdicts.{policy_at, policies, desk_bindings, ruling_at, verdict_at};
ghost use Rattle.desk_model.specs.Sessions.{Session, IsSoundSession, AllowedReply, AllowedVerdict, Runs, IsCall, opened, raised, command_in};

/// Every session stays sound.
pub fn sessions_stay_sound()
    // It begins so with a sound desk.
    ensures opened { (desk : DeskTables) → IsSound desk → IsSoundSession (opened desk) }
    // Whatever is answered to a command, the session after it is sound, at a moment that is none
    // after the last one.
    ensures command { (session : Session) → IsSoundSession session → (now : ℕ) (command : Command)
        → now ≤ 253402300799 → IsCommand command → (reply : Reply) (after : Session)
        → AllowedReply session now command reply after → IsSoundSession after }
    // So it is whatever is answered to a frame,
    ensures frame { (session : Session) → IsSoundSession session → (now : ℕ) (frame : List ℕ)
        → now ≤ 253402300799 → (verdict : Result Verdict want.Memory) (after : Session)
        → AllowedVerdict session now frame verdict after → IsSoundSession after }
    // and after a raise of the moment.
    ensures raise { (session : Session) → IsSoundSession session → (now : ℕ)
        → now ≤ 253402300799 → IsSoundSession (raised session now) }
{}

/// What stays as it is.
pub fn sessions_keep()
    // Whatever is answered to a command, it leaves the history,
    ensures history { (session : Session) (now : ℕ) (command : Command) (reply : Reply)
        (after : Session) → AllowedReply session now command reply after
        → after.history ≡ session.history }
    // and moments never go back.
    ensures moment { (session : Session) (now : ℕ) (command : Command) (reply : Reply)
        (after : Session) → AllowedReply session now command reply after
        → session.moment ≤ after.moment }
    // A command that is refused leaves all as it was, the moment too.
    ensures refused { (session : Session) (now : ℕ) (command : Command) (refusal : Refusal)
        → (command_in session now command).reply ≡ Refused refusal
        → (command_in session now command).session ≡ session }
    // Whatever is answered to a frame, it leaves the desk, and moments never go back.
    ensures judged { (session : Session) (now : ℕ) (frame : List ℕ)
        (verdict : Result Verdict want.Memory) (after : Session)
        → AllowedVerdict session now frame verdict after
        → (after.desk ≡ session.desk) × (session.moment ≤ after.moment) }
{}

/// Commands one after the other.
pub fn sessions_run()
    // They keep a session sound,
    ensures sound { (session : Session) → IsSoundSession session → (calls : List (ℕ × Command))
        → AllByRecursion IsCall calls → (replies : List Reply) (after : Session)
        → Runs session calls replies after → IsSoundSession after }
    // and leave its history.
    ensures history { (session : Session) (calls : List (ℕ × Command)) (replies : List Reply)
        (after : Session) → Runs session calls replies after → after.history ≡ session.history }
    // One more may follow.
    ensures push { (session : Session) (calls : List (ℕ × Command)) (replies : List Reply)
        (middle : Session) → Runs session calls replies middle → (now : ℕ) (command : Command)
        (reply : Reply) (after : Session) → AllowedReply middle now command reply after
        → Runs session (calls ++ (now, command) ∷ []) (replies ++ reply ∷ []) after }
{}

/// What rules on the packets of Things.
pub fn desks_rule()
    // The list of policies has that of each URL.
    ensures policies { (desk : DeskTables) (url : List ℕ) → IsSound desk
        → policy_in (policies desk) url ≡ policy_at desk url }
    // No two bindings are of one key and one address.
    ensures bindings { (desk : DeskTables) → IsSound desk
        → IsTrue (are_apart same_spot (desk_bindings desk)) }
    // In a verdict each endpoint that is a Thing has its ruling.
    ensures endpoints { (desk : DeskTables) (history : List Segment) (now : ℕ) (side : Direction)
        (thing : Thing) (fields : Fields)
        → endpoint_ruling (rulings_of desk.tables (policy_at desk) history now) side fields (Some thing)
        ≡ Some (ruling_at desk now side thing fields (begun_of history side fields now)) }
    // A packet with a Thing at its endpoints is forwarded exactly where no such Thing is held and
    // the first matching entry of the approved file of each one's URL, and then of the defaults,
    // accepts.
    ensures passes { (desk : DeskTables) (history : List Segment) (now : ℕ) (octets : List ℕ)
        (packet : PacketFrame) → frame_of octets ≡ Packet packet
        → is_managed (endpoints_of desk.tables.things packet.octets) ≡ true
        → forwarded (verdict_at desk history now octets) ≡ is_forwarded_by desk history now packet }
{}
