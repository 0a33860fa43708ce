// Whose run it is, and which globals it may read and set (document 02, request 12).
#![tactic(auto)]

ghost use Rattle.std.specs.Prelude.{◌≡◌};
ghost use Rattle.owners.specs.Owners.{may_read, may_set, is_owner, owner_of, owner_told};

#[derive(Clone, Copy)]
pub enum Owner {
    House,
    Vendor,
}

#[tactic(auto, unfolding(crate::specs::Owners::may_read))]
pub fn may_read(owner: Owner, g: u8) -> bool
    ensures { result ≡ may_read owner g }
{
    match owner {
        Owner::House => g < 64,
        Owner::Vendor => true,
    }
}

#[tactic(auto, unfolding(crate::specs::Owners::may_set))]
pub fn may_set(owner: Owner, g: u8) -> bool
    ensures { result ≡ may_set owner g }
{
    match owner {
        Owner::House => g < 64,
        Owner::Vendor => g >= 64,
    }
}

// Whether the number is an owner's: 0 or 1.
#[tactic(auto, unfolding(crate::specs::Owners::is_owner))]
pub fn is_owner(n: u64) -> bool
    ensures { result ≡ is_owner n }
{
    n <= 1
}

impl Owner {
    // The owner of that number: 0 is the house, 1 a vendor.
    #[tactic(auto, unfolding(crate::specs::Owners::owner_told))]
    pub fn of(n: u64) -> Option<Owner>
        ensures { result ≡ owner_told n }
    {
        match n {
            0 => Some(Owner::House),
            1 => Some(Owner::Vendor),
            _ => None,
        }
    }
}

// The owner of a number that is known to be an owner's.
#[tactic(auto, unfolding(crate::specs::Owners::owner_told))]
pub fn owner_of(n: u64) -> Owner
    ensures { result ≡ owner_of n }
{
    Owner::of(n).unwrap_or(Owner::Vendor)
}
