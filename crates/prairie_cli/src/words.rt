use pr_outside::Name;
use pr_value::Memory;
use std::env;
use std::env::Env;
use std::io::ErrorKind;

/// The program's words behind its own name. Where they cannot be had as text there are none.
pub fn words<R: Env + AllocGlobal>(rt: &R) -> Result<Vec<Name>, Memory> {
    let mut words = Vec::new(rt.alloc());
    match env::args(rt) {
        Ok(args) => {
            for arg in args.skip(1) {
                words.push(Name::new(rt.alloc(), arg.as_str())?)?;
            }
            Ok(words)
        }
        Err(error) if error.kind() == ErrorKind::OutOfMemory => Err(Memory),
        Err(_) => Ok(words),
    }
}
