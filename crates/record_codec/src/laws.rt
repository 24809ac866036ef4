//! What holds of all spellings. Each law is a function that does nothing: its contract is the law.

ghost use Rattle.std.specs.Prelude.{◌≡◌, ℕ, ◌≤◌, List, [], ◌++◌};
ghost use Rattle.causal_deps.specs.declared.record.Record.{Record as RecordValue};
ghost use Rattle.record_codec.specs.declared.form.Form.{Form};
ghost use Rattle.record_codec.specs.declared.message.Message.{Message as MessageValue};
ghost use Rattle.record_codec.specs.Wire.{SpellsMessage, SpellsRecord};
ghost use Rattle.cz_base.specs.declared.limits.TheConstants.{DATACENTRES};

/// Within a form no spelling of a record is a proper front of another, and no two records share one.
pub fn no_record_begins_another()
    ensures { (form : Form) (dcs : ℕ) (a b more : List ℕ) (r s : RecordValue) → dcs ≤ DATACENTRES → SpellsRecord form dcs a r → SpellsRecord form dcs b s → a ++ more ≡ b → (r ≡ s) × (more ≡ []) }
{}

/// No spelling of a message is a proper front of another, in either form, and no two messages share one.
pub fn no_message_begins_another()
    ensures { (dcs : ℕ) (a b more : List ℕ) (m n : MessageValue) → dcs ≤ DATACENTRES → SpellsMessage dcs a m → SpellsMessage dcs b n → a ++ more ≡ b → (m ≡ n) × (more ≡ []) }
{}
