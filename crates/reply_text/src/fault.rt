ghost use Rattle.serde_json.specs.Events.{SendsValue};
ghost use Rattle.namespace_model.specs.Codes.{code_text, message_text};
ghost use Rattle.reply_text.specs.ReplyText.{fault_data};

use namespace_model::Code;
use serde::{Described, Serialize, Serializer};

// What the body of a refusal says, as JSON: `{"error":{"code":C,"message":M}}`.
#[derive(Clone, Copy, Debug)]
pub(crate) struct Fault {
    pub(crate) code: Code,
}

impl Described for Fault {
    ghost writes = { λ fault. SendsValue (fault_data (code_text fault.code) (message_text fault.code)) };
}

impl Serialize for Fault {
    fn serialize<S: Serializer>(&self, out: &mut S) -> Result<(), S::Error> {
        out.begin_map(Some(1))?;
        out.key("error")?;
        out.begin_map(Some(2))?;
        out.key("code")?;
        out.str(self.code.name())?;
        out.key("message")?;
        out.str(self.code.message())?;
        out.end_map()?;
        out.end_map()
    }
}
