//! What a program gets from the system, and how it ends if the system refuses memory.
use crate::words::method_of;
use lalrpop_base::memory::OutOfMemory;
use lalrpop_construction::options::Method;
use std::env;
use std::env::VarError;
use std::io::ErrorKind;
use std::process::ExitCode;

/// Writes that an allocation failed, and returns the exit status 3.
pub fn out_of_memory(rt: &HostRuntime) -> ExitCode {
    let _ = eprintln!(rt; "out of memory");
    ExitCode::from(3)
}

/// The method that the environment variable `LALRPOP_LANE_TABLE` asks for. It is the lane method if
/// the variable is not set or is not UTF-8.
pub fn given_method(rt: &HostRuntime) -> Result<Method, OutOfMemory> {
    match env::var(rt, "LALRPOP_LANE_TABLE") {
        Ok(word) => Ok(method_of(word.as_str())),
        Err(VarError::OutOfMemory) => Err(OutOfMemory),
        Err(_) => Ok(Method::Lane),
    }
}

/// The arguments after the program's name. If an argument is not UTF-8, the list is empty, and so
/// it is no request.
pub fn given_words(rt: &HostRuntime) -> Result<Vec<String>, OutOfMemory> {
    let mut words = Vec::new(rt.alloc());
    match env::args(rt) {
        Ok(all) => {
            for word in all.skip(1) {
                words.push(word)?;
            }
        }
        Err(e) => {
            if e.kind() == ErrorKind::OutOfMemory {
                return Err(OutOfMemory);
            }
        }
    }
    Ok(words)
}
