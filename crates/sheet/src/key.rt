// The key of a return address.
ghost use Rattle.std.specs.Prelude.{◌≡◌};
ghost use Rattle.sheet.specs.Key.{key_of};

use crate::types::{CallConv, Flags};
use a64::inst::{ApiKey, Key, Modifier};

pub fn select_api_key(flags: Flags, call_conv: CallConv, setup_frame: bool) -> Option<ApiKey>
    ensures { result ≡ key_of flags call_conv setup_frame }
{
    if flags.sign_return_address && (setup_frame || flags.sign_return_address_all) {
        // A tail call may leave with another SP than it was entered with: `Tail` seals with zero.
        let zero = call_conv == CallConv::Tail;
        Some(ApiKey {
            key: if flags.sign_return_address_with_bkey {
                Key::B
            } else {
                Key::A
            },
            modifier: if zero { Modifier::Zero } else { Modifier::Sp },
        })
    } else {
        None
    }
}
