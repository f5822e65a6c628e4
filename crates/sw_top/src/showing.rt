//! The command `settings`: each key is printed with its value.

ghost use Rattle.std.specs.Prelude.{◌≡◌, IfOk, string_bytes};
ghost use Rattle.sw_top.specs.Answering.{settings_answer};
ghost use Rattle.sw_answer.specs.Seen.{text_seen};

use std::alloc::Global;
use sw_answer::{Refusal, is_memory};
use sw_base::OutOfMemory;
use sw_settings_json::from_json;
use sw_settings_print::print;

/// What is written for settings in JSON, or why they are refused.
pub fn shown(alloc: Global, input: &[u8]) -> Result<Result<String, Refusal>, OutOfMemory>
    ensures { IfOk result (λ r. text_seen string_bytes r ≡ settings_answer input.now) }
{
    match from_json(alloc, input) {
        Ok(settings) => {
            let text = print(alloc, &settings)?;
            Ok(Ok(text))
        }
        Err(fault) => {
            if is_memory(&fault) {
                return Err(OutOfMemory);
            }
            Ok(Err(Refusal::Settings(fault)))
        }
    }
}
