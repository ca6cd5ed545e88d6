ghost use Rattle.std.specs.Prelude.{◌≡◌, IfOk, MatchOption};
ghost use Rattle.serde_json.specs.Data.{Members, object};
ghost use Rattle.serde_json.specs.View.{view};
ghost use Rattle.ga_jsonlog.specs.Objects.{IsObject};

use ga_base::NoMemory;
use serde_json::Value;
use std::alloc::Global;

/// Reads a JSON object. `None` where the bytes are none.
pub(crate) fn read_object(alloc: Global, text: &[u8]) -> Result<Option<Value>, NoMemory>
    ensures { IfOk result (λ read. MatchOption read
        ((members : Members) → ¬ IsObject text.now members)
        (λ value. (members : Members) × (view value ≡ object members) × IsObject text.now members)) }
{
    match Value::from_slice(alloc, text) {
        Ok(value) => Ok(object_alone(value)),
        Err(fault) if fault.is_memory() => Err(NoMemory),
        Err(_) => Ok(None),
    }
}

/// The value where it is an object.
fn object_alone(value: Value) -> Option<Value>
    ensures { MatchOption result
        ((members : Members) → ¬ (view value ≡ object members))
        (λ kept. (kept ≡ value) × ((members : Members) × (view value ≡ object members))) }
{
    if value.is_object() { Some(value) } else { None }
}
