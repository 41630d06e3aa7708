// Keys as numbers of 102 bits, in whose order the keys lie: 3 bits each for the assets, 32 each for limit, account and
// sequence number. Assumes what each function requires.
ghost use Rattle.std.specs.Prelude.{◌≡◌, ℕ, ◌+◌, ◌*◌, ◌/◌, ◌^◌, ◌<◌, ◌≤◌};
ghost use Rattle.trie_book.specs.Codes.{code, key_of, Starts};

use terms::Key;

pub(crate) fn code(key: Key) -> u128
    requires { (key.sold < 8) × (key.bought < 8) }
    ensures value { result ≡ code key }
    ensures small { result < 2 ^ 102 }
{
    let owned = key.account as u128 * 4_294_967_296 + key.sequence as u128;
    let limited = key.limit as u128 * 18_446_744_073_709_551_616 + owned;
    let paired = key.bought as u128 * 79_228_162_514_264_337_593_543_950_336 + limited;
    key.sold as u128 * 633_825_300_114_114_700_748_351_602_688 + paired
}

pub(crate) fn key_of(c: u128) -> Key
    requires { c < 2 ^ 102 }
    ensures { result ≡ key_of c }
{
    let owned = c / 4_294_967_296;
    let limited = owned / 4_294_967_296;
    let pair = limited / 4_294_967_296;
    Key {
        sold: (pair / 8) as u8,
        bought: (pair % 8) as u8,
        limit: (limited % 4_294_967_296) as u32,
        account: (owned % 4_294_967_296) as u32,
        sequence: (c % 4_294_967_296) as u32,
    }
}

// The number above which the keys above `key` lie, if any do; the key may have any assets.
pub(crate) fn start(key: Key) -> Option<u128>
    ensures { Starts key result }
{
    if key.sold > 7 {
        return None;
    }
    if key.bought > 7 {
        return Some(code(Key {
            sold: key.sold,
            bought: 7,
            limit: u32::MAX,
            account: u32::MAX,
            sequence: u32::MAX,
        }));
    }
    Some(code(key))
}
