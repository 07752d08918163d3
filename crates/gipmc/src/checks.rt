//! A check of the answer of another program: the texts that it takes, what it writes, and how it ends.
ghost use Rattle.std.specs.Prelude.{◌≡◌, false, IfOk};
ghost use Rattle.std.specs.Option.{option_map};
ghost use Rattle.std.specs.Process.{exit_status};
ghost use Rattle.gipmc.specs.Statuses.{verified_status};
ghost use Rattle.gipmc.specs.Texts.{IsTextOf};

use crate::errors::Failure;
use crate::files::{Texts, write_out};
use crate::located::located;
use gip_cli::{Printable, refuse};
use gipmc_command::Options;
use std::fmt::Display;
use std::process::ExitCode;

// The exit status where an answer is not verified.
const REFUSED: u8 = 1;

/// The texts of the circuit that the options name and of the answer in the file of this name, each or standard input.
///
/// # Errors
/// Those of [`Texts::text_of`].
pub fn texts_of<'a, T: Texts>(
    rt: &HostRuntime,
    texts: &T,
    options: &Options<'a>,
    name: Option<&'a str>,
) -> Result<(Vec<u8>, Vec<u8>), Failure<'a>>
    ensures circuit { IfOk result
        (λ both. IsTextOf (T.bytes texts.now (option_map (λ n. n.now) options.now.file)) both.0.items) }
    ensures answer { IfOk result
        (λ both. IsTextOf (T.bytes texts.now (option_map (λ n. n.now) name.entry)) both.1.items) }
{
    let bytes = texts.text_of(rt, options.file)?;
    let text = texts.text_of(rt, name)?;
    Ok((bytes, text))
}

/// Writes that an answer is verified.
///
/// # Errors
/// [`Failure::Write`] where it can't be written.
pub fn verified<'a>(rt: &HostRuntime) -> Result<bool, Failure<'a>> {
    write_out(rt, b"s VERIFIED\n")?;
    Ok(true)
}

/// Writes that the answer in the file of this name is not verified, and tells the doubt.
///
/// # Errors
/// [`Failure::Write`] where it can't be written.
pub fn doubted<'a, D: Display>(
    rt: &HostRuntime,
    name: Option<&'a str>,
    doubt: &D,
) -> Result<bool, Failure<'a>>
    ensures { IfOk result (λ verified. verified ≡ false) }
{
    write_out(rt, b"s NOT VERIFIED\n")?;
    let name = name.unwrap_or("<stdin>");
    let _ = eprintln!(rt; "{}: {doubt}", Printable(&name));
    Ok(false)
}

/// The status after a check of the text of an answer, beside that of a circuit. Writes why it was not checked.
pub fn end_check(
    rt: &HostRuntime,
    circuit: &[u8],
    answer: &[u8],
    ended: Result<bool, Failure>,
) -> ExitCode
    ensures { exit_status result ≡ verified_status ended.entry }
{
    match ended {
        Ok(true) => ExitCode::SUCCESS,
        Ok(false) => ExitCode::from(REFUSED),
        Err(error) => refuse(rt, &located(error, circuit, answer)),
    }
}
