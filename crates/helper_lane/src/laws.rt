//! Laws of what a lane answers.

ghost use Rattle.std.specs.Prelude.{◌≡◌, ◌∷◌, List, Option, ℕ};
ghost use Rattle.dap_bytes.specs.declared.node.Node.TheVariants.{Helper};
ghost use Rattle.dap_bytes.specs.declared.part.Part.TheVariants.{Lane};
ghost use Rattle.dap_messages.specs.declared.message.Message.{Message};
ghost use Rattle.lane_records.specs.declared.record.Record.{Record};
ghost use Rattle.legal_journals.specs.Legal.{May};
ghost use Rattle.helper_lane.specs.Ready.{Ready, IsAnswerable};
ghost use Rattle.helper_lane.specs.Reply.{Env, Reacts, reply};
ghost use Rattle.helper_lane.specs.Replies.{IsEnv, OpensChangeNothing, RecordsAreAllowed, RepeatsGetTheReply, RepliesAreSpelled};

/// A law: the record that a reply asks for may follow those of the lane, and a reply has a spelling. The message once
/// more, behind that record, gets the same reply and asks for none; Opens change no reply.
pub fn replies_follow_the_rules()
    ensures allowed { (env : Env) → IsEnv env → RecordsAreAllowed env }
    ensures spelled { (env : Env) → IsEnv env → RepliesAreSpelled env }
    ensures repeats { (env : Env) → RepeatsGetTheReply env }
    ensures opens { (env : Env) → OpensChangeNothing env }
{}

/// A law: a message that a lane doesn't refuse is refused later only where its job is known with another request by
/// then, whatever records have followed.
pub fn taken_messages_stay_answerable()
    ensures first { (env : Env) (l : List Record) (b : List ℕ) (o : Option Record) (m : Message)
        → reply env l b ≡ Reacts o m → Ready env l b }
    ensures more { (env : Env) (l : List Record) (x : Record) (b : List ℕ) → May Helper (Lane env.lane) x l
        → Ready env l b → Ready env (x ∷ l) b }
    ensures answerable { (env : Env) (l : List Record) (b : List ℕ) → Ready env l b → IsAnswerable env l b }
{}
