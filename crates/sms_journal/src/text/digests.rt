//! The digests of a run's files, and which of them differ.

ghost use Rattle.std.specs.Prelude.{◌≡◌, ◌↔◌, IsTrue, MatchOption, option_map};
ghost use Rattle.std.specs.Option.{option_copied};
ghost use Rattle.sha2.specs.Sha256.{sha256};
ghost use Rattle.sms_journal.specs.declared.text.header.ConfigTie.TheVariants.{Octets};
ghost use Rattle.sms_journal.specs.Digests.{DiffersFirst, TieDiffers, digests_of as of_files, keyed, keys_of as of_config, tied_as};

use crate::text::header::{ConfigTie, Digests, ReportKeys};
use sha2::{Digest, Sha256};
use sms_files::Config;

/// What a journal is tied to: a file that its run reads, or a key of its config.
#[derive(Clone, Copy, Debug, PartialEq, Eq)]
pub enum RunFile {
    Config,
    /// The config's `attempts`.
    Attempts,
    /// The config's `long_reference`.
    LongReference,
    Accounts,
    Messages,
    Tariff,
}

/// The SHA-256 digest of a file.
fn digest_of(file: &[u8]) -> [u8; 32]
    ensures { result ≡ sha256 file.now }
{
    Sha256::digest(file)
}

/// The digest of the tariff, where there is one.
fn digest_of_tariff(tariff: Option<&[u8]>) -> Option<[u8; 32]>
    ensures { result ≡ option_map sha256 (option_copied tariff.entry) }
{
    match tariff {
        Some(file) => Some(digest_of(file)),
        None => None,
    }
}

/// The SHA-256 digests (FIPS 180-4) of these files' octets.
pub fn digests_of(config: &[u8], accounts: &[u8], messages: &[u8], tariff: Option<&[u8]>) -> Digests
    ensures { result ≡ of_files config.now accounts.now messages.now (option_copied tariff.entry) }
{
    Digests {
        config: ConfigTie::Octets(digest_of(config)),
        accounts: digest_of(accounts),
        messages: digest_of(messages),
        tariff: digest_of_tariff(tariff),
    }
}

/// What of a config a run's report is computed by.
pub fn keys_of(config: &Config) -> ReportKeys
    ensures { result ≡ of_config config.now }
{
    ReportKeys {
        attempts: config.retry.policy.attempts,
        long_reference: config.flags.long_reference,
        binds: config.limits.binds,
        workers: config.limits.workers,
    }
}

/// What a journal of these files may be tied to.
#[derive(Clone, Copy, Debug, PartialEq, Eq)]
pub struct FileTies {
    /// Their digests.
    pub digests: Digests,
    /// What of the config a report is computed by.
    pub keys: ReportKeys,
}

impl FileTies {
    /// What the first line says of a journal that is tied to what a report is computed by.
    pub fn keyed(&self) -> Digests
        ensures { result ≡ keyed self.now.keys self.now.digests }
    {
        Digests {
            config: ConfigTie::Keys(self.keys),
            ..self.digests
        }
    }

    /// What a first line that is tied so says of these files.
    pub(crate) fn tied_as(&self, tie: ConfigTie) -> Digests
        ensures { result ≡ tied_as tie self.now }
    {
        match tie {
            ConfigTie::Octets(_) => self.digests,
            ConfigTie::Keys(keys) => Digests {
                config: ConfigTie::Keys(ReportKeys {
                    binds: keys.binds,
                    workers: keys.workers,
                    ..self.keys
                }),
                ..self.digests
            },
        }
    }
}

/// Whether a config's digest is the one that a journal says.
fn is_config(digest: [u8; 32], tie: ConfigTie) -> bool
    ensures { IsTrue result ↔ (tie ≡ Octets digest) }
{
    match tie {
        ConfigTie::Octets(other) => digest == other,
        ConfigTie::Keys(_) => false,
    }
}

/// What differs between the config that a journal is tied to and the one of these files.
fn tie_difference(tie: ConfigTie, files: &FileTies) -> Option<RunFile>
    ensures { MatchOption result ((tied_as tie files.now).config ≡ tie) (TieDiffers tie (tied_as tie files.now).config) }
{
    match tie {
        ConfigTie::Octets(digest) => {
            if is_config(digest, files.digests.config) {
                None
            } else {
                Some(RunFile::Config)
            }
        }
        ConfigTie::Keys(keys) => {
            if keys.attempts != files.keys.attempts {
                return Some(RunFile::Attempts);
            }
            if keys.long_reference != files.keys.long_reference {
                return Some(RunFile::LongReference);
            }
            None
        }
    }
}

/// The first thing that differs between what a journal says and what its files say in the same way. A tariff that only
/// one has differs.
pub(crate) fn first_difference(digests: &Digests, files: &FileTies) -> Option<RunFile>
    ensures { MatchOption result (digests.now ≡ tied_as digests.now.config files.now) (DiffersFirst digests.now (tied_as digests.now.config files.now)) }
{
    let others = files.tied_as(digests.config);
    if let Some(what) = tie_difference(digests.config, files) {
        return Some(what);
    }
    if digests.accounts != others.accounts {
        return Some(RunFile::Accounts);
    }
    if digests.messages != others.messages {
        return Some(RunFile::Messages);
    }
    if digests.tariff != others.tariff {
        return Some(RunFile::Tariff);
    }
    None
}
