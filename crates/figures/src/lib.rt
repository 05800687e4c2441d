// Figures: the exact arithmetic on whole numbers that the land and its storages rest on.
#![tactic(auto)]

pub mod curve;
pub mod fraction;
pub mod power;
pub mod root;
pub mod share;

#[cfg(test)]
mod tests {
    use crate::curve::{groundwater_part, upper_zone_part};
    use crate::fraction::Fraction;
    use crate::power::power;
    use crate::root::root;
    use crate::share::share;

    #[test]
    fn roots_at_the_ends(rt: HostRuntime) {
        assert_eq!(rt; [root(0), root(1), root(8), root(9)], [0, 1, 4, 4]);
        assert_eq!(rt; [root(100_000_000), root(u32::MAX)], [215_443, 2_642_245]);
    }

    #[test]
    fn shares_and_powers(rt: HostRuntime) {
        assert_eq!(rt;
            [share(500, 500), share(501, 500), share(1, 0)],
            [250, 250, 0]
        );
        assert_eq!(rt;
            [share(u32::MAX, u64::MAX), share(u32::MAX, 1)],
            [u32::MAX, 1]
        );
        assert_eq!(rt;
            [power(0), power(8), power(96), power(255)],
            [65_536, 92_681, 4_194_304, 4_112_842_752]
        );
    }

    #[test]
    fn fractions_at_the_ends(rt: HostRuntime) {
        assert_eq!(rt;
            [
                Fraction { parts: 0 }.of(u64::MAX),
                Fraction { parts: 1_048_576 }.of(u64::MAX),
                Fraction { parts: 524_288 }.of(3),
            ],
            [0, u64::MAX, 1]
        );
    }

    #[test]
    fn curves_at_the_ends(rt: HostRuntime) {
        assert_eq!(rt;
            [
                upper_zone_part(1_000_000, 500_000).parts,
                groundwater_part(6_000_000, 2_000_000).parts,
            ],
            [1_019_449, 38_836]
        );
        assert_eq!(rt;
            [upper_zone_part(0, 0).parts, groundwater_part(0, 0).parts],
            [134, 1_046_898]
        );
        assert_eq!(rt;
            [
                upper_zone_part(u32::MAX, u64::from(u32::MAX)).parts,
                groundwater_part(u32::MAX, 0).parts,
            ],
            [990_321, 0]
        );
        assert_eq!(rt; upper_zone_part(u32::MAX, u64::MAX).parts, 134);
    }
}
