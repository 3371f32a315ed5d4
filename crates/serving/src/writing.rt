ghost use Rattle.conn_io.specs.Causes.{HasCause};
ghost use Rattle.serving.specs.Written.{WritesAll};

use conn_io::{Failed, Sink};

/// Hands the bytes to the sink, in as few writes as it takes them. After a failure nothing more is written.
pub fn write_all<K: Sink>(sink: &mut K, bytes: &[u8]) -> Result<(), Failed>
    ensures written { WritesAll (K.out sink.old) (K.out sink.new) bytes.now result }
    ensures counts { HasCause (K.faults sink.old) (K.faults sink.new) result }
{
    let mut rest = bytes;
    'writing: while !rest.is_empty() {
        match sink.write(rest) {
            Ok(count) => rest = &rest[count..],
            Err(Failed) => return Err(Failed),
        }
    }
    Ok(())
}
