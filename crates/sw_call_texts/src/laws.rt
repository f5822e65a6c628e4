//! That reading and printing agree.

ghost use Rattle.std.specs.Prelude.{◌≡◌, ◌↔◌, ℕ, List, Option, Some};
ghost use Rattle.sw_base.specs.declared.table.Value.{Value};
ghost use Rattle.sw_base.specs.declared.table.Call.{Call};
ghost use Rattle.sw_call.specs.declared.answer.Replied.{Replied};
ghost use Rattle.sw_call.specs.Values.{value_of};
ghost use Rattle.sw_call.specs.Calls.{call_of};
ghost use Rattle.sw_call.specs.Replies.{reply_of};
ghost use Rattle.sw_log_text.specs.Values.{value_text, reply_text};
ghost use Rattle.sw_log_text.specs.Calls.{call_text};
ghost use Rattle.sw_call_texts.specs.Spelled.{IsValue, IsCall, IsReplied};

/// A text is read as a value exactly where it is what is printed for the value.
pub fn values_agree()
    ensures { (text : List ℕ) (v : Value) → (value_of text ≡ Some v) ↔ (IsValue v × (text ≡ value_text v)) }
{}

/// A text is read as a call exactly where it is what is printed for the call, and the call is one that has a text.
pub fn calls_agree()
    ensures { (text : List ℕ) (c : Call) → (call_of text ≡ Some c) ↔ (IsCall c × (text ≡ call_text c)) }
{}

/// A text is read as a reply exactly where it is what is printed for the reply and its row.
pub fn replies_agree()
    ensures { (text : List ℕ) (r : Replied) → (reply_of text ≡ Some r) ↔ (IsReplied r × (text ≡ reply_text r.reply r.cells)) }
{}
