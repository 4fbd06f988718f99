//! Laws about streams and PDUs, each of every case: the contract of a function whose body is empty,
//! or only makes the calls that the law is about.

ghost use Rattle.std.specs.Prelude.{◌≡◌, IfOk, IfErr, Err};
ghost use Rattle.sms_pdu.specs.declared.body.Pdu.{Pdu};
ghost use Rattle.sms_pdu.specs.declared.error.PduError.{PduError};
ghost use Rattle.sms_pdu.specs.declared.error.PduError.TheVariants.{OutOfMemory};
ghost use Rattle.sms_pdu.specs.Grammar.{Spells, IsLawful};
ghost use Rattle.sms_pdu.specs.Reading.{reading};
ghost use Rattle.sms_pdu.specs.Size.{size_of};
ghost use Rattle.sms_pdu.specs.Laws.{OneDivision, EachDivided, PiecesJoin, BadStays, LaterAdds, OthersFollow, AnswersJoin, OneListOfAnswers, AnswersGrow, OneSpelling, OneReading, NoPrefix, SpellingIsFrame};

use crate::body::Pdu;
use crate::decoding::decode;
use crate::encoding::encode;
use crate::error::PduError;
use std::alloc::Global;

/// A stream is divided into frames and a rest in one way alone.
pub fn one_division()
    ensures { OneDivision }
{}

/// Every stream is divided so.
pub fn each_divided()
    ensures { EachDivided }
{}

/// The frames of one piece and then those of the next, fed after the first one's rest, are the
/// frames of both pieces fed as one.
pub fn pieces_join()
    ensures { PiecesJoin }
{}

/// A rest with a bad length stays bad, whatever follows it.
pub fn bad_stays()
    ensures { BadStays }
{}

/// What comes later only adds frames: those of the rest and what came.
pub fn later_adds()
    ensures { LaterAdds }
{}

/// What follows the first frame divides into the others.
pub fn others_follow()
    ensures { OthersFollow }
{}

/// The answers among two lists of frames are those of both, one after the other. So a stream has
/// one list of answers, and what comes later only adds to it.
pub fn answers_join()
    ensures join { AnswersJoin }
    ensures one { OneListOfAnswers }
    ensures grow { AnswersGrow }
{}

/// A lawful PDU has one spelling.
pub fn one_spelling()
    ensures { OneSpelling }
{}

/// Octets spell one PDU at most.
pub fn one_reading()
    ensures { OneReading }
{}

/// No spelling of a PDU is a proper prefix of another.
pub fn no_prefix()
    ensures { NoPrefix }
{}

/// A spelling of a PDU is a frame.
pub fn spelling_is_frame()
    ensures { SpellingIsFrame }
{}

/// What was encoded is decoded again as it was; a PDU that has no spelling is refused as `encode`
/// refuses it, and nothing but want of memory stops any other.
pub fn decode_of_encode(alloc: Global, pdu: &Pdu) -> Result<Pdu, PduError>
    ensures unchanged { IfOk result (λ p. p ≡ pdu.now) }
    ensures memory { IsLawful pdu.now → IfErr result (λ e. e ≡ OutOfMemory) }
    ensures refused { (e : PduError) → size_of pdu.now ≡ Err e → result ≡ Err e }
{
    let octets = encode(alloc, pdu)?;
    decode(alloc, octets.as_slice())
}

/// What was decoded is encoded again as it was; octets that spell no PDU are refused as `decode`
/// refuses them, and nothing but want of memory stops any other.
pub fn encode_of_decode(alloc: Global, octets: &[u8]) -> Result<Vec<u8>, PduError>
    ensures unchanged { IfOk result (λ v. v.items ≡ octets.now) }
    ensures memory { (p : Pdu) → Spells p octets.now → IfErr result (λ e. e ≡ OutOfMemory) }
    ensures refused { (e : PduError) → reading octets.now ≡ Err e → result ≡ Err e }
{
    let pdu = decode(alloc, octets)?;
    let again = encode(alloc, &pdu);
    drop(pdu);
    again
}
