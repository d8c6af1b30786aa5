//! The body of an answer, in a buffer that is taken once, or made whole.
ghost use Rattle.std.specs.Prelude.{◌≡◌, ◌≤◌, [], false, length, IfOk};
ghost use Rattle.console_answers.specs.Bodies.Outcomes as outcomes;
ghost use Rattle.console_answers.specs.Bodies.Heards as heards;
ghost use Rattle.console_answers.specs.Bodies.Verdicts as verdicts;
ghost use Rattle.console.specs.Replies.{reply, made_reply, is_unavailable};

use console_answers::bodies::{
    HeardTexts, write_file, write_heard, write_nothing_heard, write_rule, write_stated,
    write_verdict,
};
use console_answers::{AnswerBuffer, Status};
use console_routes::Statement;
use desk_model::Outcome;
use dhcp_lldp::Heard;
use mud_base::{Bytes, Memory};
use packet_judge::Verdict;
use std::alloc::Global;
use std::marker::Model;

/// The text of a body. Short ones are written into a buffer and take no memory; a longer one is kept
/// as it was made. Contracts see it as the list of its octets.
#[derive(Drop)]
pub struct BodyText {
    buffer: AnswerBuffer,
    made: Option<Bytes>,
}

impl Model for BodyText {
    ghost use Rattle.std.specs.Prelude.{ℕ, List};
    ghost use Rattle.console.specs.Bodies.{held_in};

    ghost Value = { List ℕ };

    ghost view = { λ b. held_in b.made b.buffer };
}

impl BodyText {
    /// An empty text. The memory of all short bodies is taken here.
    #[tactic(auto, unfolding(crate::specs::Bodies::held_in))]
    pub fn new(alloc: Global) -> Result<BodyText, Memory>
        ensures { IfOk result (λ text. text ≡ []) }
    {
        let buffer = AnswerBuffer::new(alloc)?;
        Ok(BodyText { buffer, made: None })
    }

    /// The octets.
    #[tactic(auto, unfolding(crate::specs::Bodies::held_in))]
    pub fn octets(&self) -> &[u8]
        ensures { result.now ≡ self.now }
    {
        match &self.made {
            Some(made) => made.octets(),
            None => self.buffer.octets(),
        }
    }

    /// Keeps a body that was made. It takes no memory.
    #[tactic(auto, unfolding(crate::specs::Bodies::held_in))]
    pub fn keep(&mut self, made: Bytes)
        ensures { self.new ≡ made }
    {
        self.made = Some(made);
    }

    /// Writes the body that names a rule alone, of at most 100 octets.
    #[tactic(auto, unfolding(crate::specs::Bodies::held_in))]
    pub fn write_rule(&mut self, rule: &[u8])
        requires { length rule.now ≤ 100 }
        ensures { self.new ≡ outcomes.rule_body rule.now }
    {
        self.made = None;
        write_rule(&mut self.buffer, rule);
    }

    /// Writes what a statement did that was carried out.
    #[tactic(auto, unfolding(crate::specs::Bodies::held_in))]
    pub fn write_stated(&mut self, statement: Statement, outcome: &Outcome)
        ensures { self.new ≡ outcomes.stated_body statement outcome.now }
    {
        self.made = None;
        write_stated(&mut self.buffer, statement, outcome);
    }

    /// Writes what became of a usage file that was taken.
    #[tactic(auto, unfolding(crate::specs::Bodies::held_in))]
    pub fn write_file(&mut self, outcome: &Outcome)
        ensures { self.new ≡ outcomes.url_body outcome.now.word outcome.now.url }
    {
        self.made = None;
        write_file(&mut self.buffer, outcome);
    }

    /// Writes that a message says nothing.
    #[tactic(auto, unfolding(crate::specs::Bodies::held_in))]
    pub fn write_nothing_heard(&mut self)
        ensures { self.new ≡ heards.nothing_body }
    {
        self.made = None;
        write_nothing_heard(&mut self.buffer);
    }

    /// Writes what became of what was heard and taken.
    #[tactic(auto, unfolding(crate::specs::Bodies::held_in))]
    pub fn write_heard(&mut self, heard: &Heard, texts: &HeardTexts, outcome: &Outcome)
        requires { texts.now ≡ heards.texts_of heard.now }
        ensures { self.new ≡ heards.heard_body heard.now outcome.now }
    {
        self.made = None;
        write_heard(&mut self.buffer, heard, texts, outcome);
    }

    /// Writes a verdict.
    #[tactic(auto, unfolding(crate::specs::Bodies::held_in))]
    pub fn write_verdict(&mut self, verdict: &Verdict)
        ensures { self.new ≡ verdicts.verdict_body verdict.now }
    {
        self.made = None;
        write_verdict(&mut self.buffer, verdict);
    }

    /// Keeps a body that was made for an answer of this status, or says that there was no memory for
    /// it. It answers the status.
    #[tactic(auto, unfolding(crate::specs::Replies::made_reply, crate::specs::Replies::no_storage))]
    pub fn take(&mut self, status: Status, made: Result<Bytes, Memory>) -> Status
        ensures reply { reply result self.new ≡ made_reply status made }
        ensures known { is_unavailable status ≡ false → is_unavailable result ≡ false }
    {
        match made {
            Ok(made) => {
                self.keep(made);
                status
            }
            Err(Memory) => {
                self.write_rule(b"memory");
                Status::NoStorage
            }
        }
    }
}
