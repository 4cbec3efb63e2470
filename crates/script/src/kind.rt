// The kinds of packets by their names in a script.
ghost use Rattle.std.specs.Prelude.{◌≡◌};
ghost use Rattle.packet.specs.Names.{token_kind_name, data_kind_name, handshake_name};
ghost use Rattle.script.specs.Names.{token_kind_read, data_kind_read, handshake_read};

use super::Misread;
use super::argument::Argument;
use super::name::named;
use packet::{DataKind, Handshake, TokenKind};

impl Argument for TokenKind {
    type Value = TokenKind;

    ghost reading = { token_kind_read };

    fn read(word: &[u8]) -> Result<TokenKind, Misread> {
        const NAMES: [(&str, TokenKind); 3] = [
            ("OUT", TokenKind::Out),
            ("IN", TokenKind::In),
            ("SETUP", TokenKind::Setup),
        ];
        named(word, &NAMES, Misread::UnknownKind)
    }
}

impl Argument for DataKind {
    type Value = DataKind;

    ghost reading = { data_kind_read };

    fn read(word: &[u8]) -> Result<DataKind, Misread> {
        const NAMES: [(&str, DataKind); 2] = [
            ("DATA0", DataKind::Data0),
            ("DATA1", DataKind::Data1),
        ];
        named(word, &NAMES, Misread::UnknownKind)
    }
}

impl Argument for Handshake {
    type Value = Handshake;

    ghost reading = { handshake_read };

    fn read(word: &[u8]) -> Result<Handshake, Misread> {
        const NAMES: [(&str, Handshake); 3] = [
            ("ACK", Handshake::Ack),
            ("NAK", Handshake::Nak),
            ("STALL", Handshake::Stall),
        ];
        named(word, &NAMES, Misread::UnknownKind)
    }
}

pub fn token_kind_name(kind: TokenKind) -> &'static str
    ensures { result.now ≡ token_kind_name kind }
{
    kind.name()
}

pub fn data_kind_name(kind: DataKind) -> &'static str
    ensures { result.now ≡ data_kind_name kind }
{
    kind.name()
}

pub fn handshake_name(handshake: Handshake) -> &'static str
    ensures { result.now ≡ handshake_name handshake }
{
    handshake.name()
}
