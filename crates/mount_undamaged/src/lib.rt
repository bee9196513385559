//! A sound mount shows no damage.
//!
//! It owns the law that no call on a sound mount is answered with damage, whatever fault the store answers. It has no
//! code beyond that law.
#![tactic(auto)]

mod laws;

pub use laws::a_sound_mount_shows_no_damage;
