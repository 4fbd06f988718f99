//! The files that a config names, opened to be read.

ghost use Rattle.std.specs.Prelude.{◌≡◌, ◌≢◌, [], None, IfErr, IfOk, option_map};
ghost use Rattle.sms_send.specs.Opened.{AreFound, IsNamed, FailsOpeningFiles};

use crate::faults::fault::Fault;
use crate::files::opened::InputFiles;
use sms_files::{Config, FileNames};
use std::io::ErrorKind;

/// A config, and the files that it names, opened to be read.
#[derive(Drop)]
pub struct OpenInput<F> {
    /// What the config says.
    pub config: Config,
    /// The accounts that pay.
    pub accounts: F,
    /// The messages to send.
    pub messages: F,
    /// What a segment costs; None where the config names no tariff.
    pub tariff: Option<F>,
}

/// The file of this name, opened to be read; none where the name is empty.
fn open_if_named<R: InputFiles>(rt: &R, name: &str) -> Result<Option<R::InputFile>, ErrorKind>
    ensures named { IfOk result (λ file. IsNamed (R.finds rt.now) name.now (option_map R.InputFile.remaining file)) }
    ensures lost { IfErr result (λ kind. R.finds rt.now name.now None × (name.now ≢ [])) }
{
    if name.is_empty() {
        return Ok(None);
    }
    match rt.open_input(name) {
        Ok(file) => Ok(Some(file)),
        Err(error) => Err(error.kind()),
    }
}

/// Files of a sending, opened to be read, with their names.
#[derive(Drop)]
struct OpenFiles<F> {
    names: FileNames,
    accounts: F,
    messages: F,
    tariff: Option<F>,
}

/// Opens the files of these names in this order. The first that can't be opened is the fault.
fn open_files<R: InputFiles>(rt: &R, names: FileNames) -> Result<OpenFiles<R::InputFile>, Fault>
    ensures names { IfOk result (λ opened. opened.names ≡ names) }
    ensures found { IfOk result (λ opened. AreFound (R.finds rt.now) names (R.InputFile.remaining opened.accounts) (R.InputFile.remaining opened.messages) (option_map R.InputFile.remaining opened.tariff)) }
    ensures refused { IfErr result (FailsOpeningFiles (R.finds rt.now) names) }
{
    let FileNames {
        accounts,
        messages,
        tariff,
    } = names;
    let accounts_file = match rt.open_input(accounts.as_str()) {
        Ok(file) => file,
        Err(error) => return Err(Fault::File(accounts, error.kind())),
    };
    let messages_file = match rt.open_input(messages.as_str()) {
        Ok(file) => file,
        Err(error) => return Err(Fault::File(messages, error.kind())),
    };
    let tariff_file = match open_if_named(rt, tariff.as_str()) {
        Ok(file) => file,
        Err(kind) => return Err(Fault::File(tariff, kind)),
    };
    Ok(OpenFiles {
        names: FileNames {
            accounts,
            messages,
            tariff,
        },
        accounts: accounts_file,
        messages: messages_file,
        tariff: tariff_file,
    })
}

/// Opens the files that a config names: accounts, messages, tariff. The first that can't be opened is the
/// fault.
pub fn open_input<R: InputFiles>(rt: &R, config: Config) -> Result<OpenInput<R::InputFile>, Fault>
    ensures config { IfOk result (λ opened. opened.config ≡ config) }
    ensures found { IfOk result (λ opened. AreFound (R.finds rt.now) config.files (R.InputFile.remaining opened.accounts) (R.InputFile.remaining opened.messages) (option_map R.InputFile.remaining opened.tariff)) }
    ensures refused { IfErr result (FailsOpeningFiles (R.finds rt.now) config.files) }
{
    let Config {
        connection,
        limits,
        retry,
        flags,
        files,
        answers,
        fields,
    } = config;
    let OpenFiles {
        names,
        accounts,
        messages,
        tariff,
    } = match open_files(rt, files) {
        Ok(opened) => opened,
        Err(fault) => return Err(fault),
    };
    Ok(OpenInput {
        config: Config {
            connection,
            limits,
            retry,
            flags,
            files: names,
            answers,
            fields,
        },
        accounts,
        messages,
        tariff,
    })
}
