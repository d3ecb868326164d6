// Keys: the index of a slot and the version that the slot had when the key was issued.
// Every number given as a key is read by `from_ffi`, and every key is packed by `as_ffi`; only the replays, whose lists have keys bent in one field, put a
// number together or take one apart besides.
#![tactic(auto)]

ghost use Rattle.std.specs.Prelude.{◌≡◌, ◌%◌, ◌==◌};
ghost use Rattle.keys.specs.Keys.{vsn, odd, up, down, key_of, number_of, null_key, is_null, made};

#[derive(Clone, Copy)]
pub struct KeyData {
    pub idx: u32,
    pub version: u32,
}

impl KeyData {
    // The null key. No slot has its index, so it is never live.
    pub const NULL: KeyData = KeyData {
        idx: 4294967295,
        version: 1,
    };

    // The key of an index and a version, whose lowest bit is set.
    pub fn new(idx: u32, version: u32) -> KeyData
        ensures { result ≡ made idx version }
    {
        KeyData {
            idx,
            version: version | 1,
        }
    }

    // The null key, as a function: a constant cannot carry a contract.
    pub fn null() -> KeyData
        ensures { result ≡ null_key }
    {
        KeyData::NULL
    }

    // Goes by the index alone: a key with the null key's index is null whatever its version.
    pub fn is_null(self) -> bool
        ensures { result ≡ is_null self }
    {
        self.idx == KeyData::NULL.idx
    }

    // The key that a number names.
    pub fn from_ffi(value: u64) -> KeyData
        ensures { result ≡ key_of value }
    {
        let idx = (value & 0xffff_ffff) as u32;
        let version = ((value >> 32) | 1) as u32;
        KeyData { idx, version }
    }

    // The number that names a key.
    pub fn as_ffi(self) -> u64
        ensures { result ≡ number_of self }
    {
        let version = self.version;
        let idx = self.idx;
        ((version as u64) << 32) | (idx as u64)
    }

    // A stored key's version as it stands, with its lowest bit as it is.
    pub fn raw_version(value: u64) -> u32
        ensures { result ≡ vsn value }
    {
        (value >> 32) as u32
    }
}

// The version after a removal or a detach: from 4,294,967,295 it wraps to 0.
pub fn version_up(version: u32) -> u32
    ensures { result ≡ up version }
{
    version.wrapping_add(1)
}

// The version that a reattach gives back: from 0 it wraps to 4,294,967,295.
pub fn version_down(version: u32) -> u32
    ensures { result ≡ down version }
{
    version.wrapping_sub(1)
}

// The version that a slot has once it is taken: the lowest bit set.
pub fn odd_version(version: u32) -> u32
    ensures { result ≡ odd version }
{
    version | 1
}

// Whether a slot of this version is occupied.
pub fn is_odd(version: u32) -> bool
    ensures { result ≡ (version % 2 == 1) }
{
    version & 1 == 1
}
