ghost use Rattle.std.specs.Prelude.{IfOk};
ghost use Rattle.containers.specs.TokenText.{IsWritable};

use access_tokens::Keys;
use containers::ContainerToken;
use std::test::Fail;
use wopi_model::User;

mod answers;
mod tokens;

/// The key `Jefe`, whose number is 0.
const WORD: &[u8] = b"4a656665";

/// A token under it of the user `ann`, who may write, with the serial number 7, from 0 to 9,000,000.
const TEXT: &str =
    "c1.0.ann.w.7.0.9000000.e0cc1f16dede3033cfe8e3360ef69e2d525f2d27075d07b57df3cdc05dcea359";

/// The same under the key `6b`.
const FORMER_TEXT: &str =
    "c1.0.ann.w.7.0.9000000.1e57a35558dfaeab1bf1b23b7d12a8c6b1df9cd224e968dd4e489854c4d359a4";

/// The same with another zero before the serial number, and the right code.
const ZERO_TEXT: &str =
    "c1.0.ann.w.07.0.9000000.aad87b3d0b7bb72ed5fc7985e86af220c9f1b0ccb779bb68f98320e89b07a5dc";

/// A token of the same user for the file `a.csv`.
const FILE_TEXT: &str =
    "v2.0.ann.612e637376.w.7.0.9000000.317f004f38acf940fb14a515a2cc18e472e09d6a10c8844f354b6839fad30b43";

fn keys(word: &[u8]) -> Result<Keys, Fail> {
    Ok(Keys::read(word).ok_or("keys")?)
}

fn token(write: bool) -> Result<ContainerToken, Fail>
    ensures { IfOk result IsWritable }
{
    Ok(ContainerToken {
        user: User::read(b"ann").ok_or("a user")?,
        write,
        serial: 7,
        issued: 0,
        expires: 9_000_000,
    })
}
