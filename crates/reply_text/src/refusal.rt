ghost use Rattle.std.specs.Prelude.{◌≡◌, ◌++◌, [], IfOk, OnOk, take, length, if◌then◌else◌};
ghost use Rattle.path_text.specs.Targets.{written_path};
ghost use Rattle.reply_text.specs.Lines.{line};
ghost use Rattle.reply_text.specs.ReplyText.{fault_body, body_of, code_lines, denial_lines, denied_lines};

use super::fault::Fault;
use super::lines::put_line;
use super::values::rule_text;
use namespace_model::{Code, Denied};
use path_text::{Path, write_path};
use serde_json::to_vec;
use std::alloc::{AllocError, Global};

#[tactic(auto, unfolding(crate::specs::ReplyText::fault_body))]
fn fault_body(alloc: Global, code: Code) -> Result<Vec<u8>, AllocError>
    ensures { IfOk result (λ body. body.items ≡ fault_body code) }
{
    match to_vec(alloc, &Fault { code }) {
        Ok(text) => Ok(text),
        Err(_) => Err(AllocError),
    }
}

// The body that follows from a code, and nothing where there is none, or where none is written.
pub(crate) fn body_of_code(
    alloc: Global,
    code: Option<Code>,
    bare: bool,
) -> Result<Vec<u8>, AllocError>
    ensures { IfOk result (λ body. body.items ≡ (if bare then [] else body_of code [])) }
{
    match code {
        Some(code) if !bare => fault_body(alloc, code),
        _ => Ok(Vec::new(alloc)),
    }
}

#[tactic(auto, using(crate::proofs::Kept::kept_rules), unfolding(crate::specs::ReplyText::code_lines))]
pub(crate) fn put_code_lines(
    out: &mut Vec<u8>,
    code: Option<Code>,
    bare: bool,
) -> Result<(), AllocError>
    ensures text { OnOk result (out.new.items ≡ out.old.items ++ code_lines code bare) }
    ensures kept { take (length out.old.items) out.new.items ≡ out.old.items }
{
    let Some(code) = code else {
        return Ok(());
    };
    if bare {
        put_line(out, b"x-ms-error-code", code.name().as_bytes())?;
        return Ok(());
    }
    put_line(out, b"Content-Type", b"application/json")?;
    put_line(out, b"x-ms-error-code", code.name().as_bytes())?;
    Ok(())
}

#[tactic(auto, using(crate::proofs::Kept::kept_rules), unfolding(crate::specs::Lines::line))]
fn put_path_line(out: &mut Vec<u8>, name: &[u8], path: &Path) -> Result<(), AllocError>
    ensures text { OnOk result (out.new.items ≡ out.old.items ++ line name.now (written_path path.now)) }
    ensures kept { take (length out.old.items) out.new.items ≡ out.old.items }
{
    out.extend_from_slice(name)?;
    out.extend_from_slice(b": ")?;
    write_path(path, out)?;
    out.extend_from_slice(b"\r\n")
}

#[tactic(auto, using(crate::proofs::Kept::kept_rules), unfolding(crate::specs::ReplyText::denial_lines))]
fn put_denial_lines(out: &mut Vec<u8>, denied: &Denied) -> Result<(), AllocError>
    ensures text { OnOk result (out.new.items ≡ out.old.items ++ denial_lines denied.now) }
    ensures kept { take (length out.old.items) out.new.items ≡ out.old.items }
{
    put_line(out, b"x-ms-denied-rule", rule_text(denied.rule))?;
    put_path_line(out, b"x-ms-denied-path", &denied.at)?;
    put_line(out, b"x-ms-denied-want", &denied.want.text())?;
    put_line(out, b"x-ms-denied-have", &denied.have.text())
}

pub(crate) fn put_denied_lines(out: &mut Vec<u8>, denied: &Option<Denied>) -> Result<(), AllocError>
    ensures text { OnOk result (out.new.items ≡ out.old.items ++ denied_lines denied.now) }
    ensures kept { take (length out.old.items) out.new.items ≡ out.old.items }
{
    match denied {
        Some(denied) => put_denial_lines(out, denied),
        None => Ok(()),
    }
}
