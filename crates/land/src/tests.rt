// Hours worked by hand.
use crate::flows::flows;
use crate::seepage::percolation;
use crate::water::Zones;
use std::test::Fail;

// After the Napa River, with a part of the demand left for groundwater.
const NAPA: [u8; 280] =
    *b"AREA             166IMPV           31457CEPSC         150000UZSN          800000LZSN        13500000INFILT         18750INTFW            150LZETP         112347DEEPFR             0AGWETP         52429OVK           100000IFWK           22082GWK             1106CHK           157286";

// Ground that takes water in quickly, over an upper zone of a million.
const QUICK: [u8; 280] =
    *b"AREA             166IMPV           31457CEPSC         150000UZSN         1000000LZSN        13500000INFILT        100000INTFW            150LZETP         112347DEEPFR             0AGWETP         52429OVK           100000IFWK           22082GWK             1106CHK           157286";

#[test]
fn a_full_upper_zone_percolates(rt: HostRuntime) -> Result<(), Fail> {
    let card = card::check(&QUICK)?;
    assert_eq!(rt; percolation(&card, 1_000_000, 0), 10_000);
    Ok(())
}

// The hour that docs/MODEL.md works with a pencil.
#[test]
fn an_hour_with_a_pencil(rt: HostRuntime) -> Result<(), Fail> {
    let card = card::check(&NAPA)?;
    let zones = Zones {
        interception: 100_000,
        upper: 300_000,
        lower: 6_000_000,
    };
    let hour = flows(&card, zones, 400_000, 4_908);
    assert_eq!(rt;
        [hour.runoff, hour.slope, hour.interflow, hour.groundwater],
        [11_999, 3_285, 91_171, 10_185]
    );
    assert_eq!(rt;
        [hour.zones.interception, hour.zones.upper, hour.zones.lower],
        [145_092, 454_352, 6_079_008]
    );
    assert_eq!(rt; [hour.evaporated, hour.demand], [4_908, 0]);
    Ok(())
}

#[test]
fn a_dry_hour_asks_the_lower_zone(rt: HostRuntime) -> Result<(), Fail> {
    let card = card::check(&NAPA)?;
    let zones = Zones {
        lower: 6_000_000,
        ..Zones::default()
    };
    let hour = flows(&card, zones, 0, 4_908);
    assert_eq!(rt;
        [hour.evaporated, hour.demand, hour.zones.lower],
        [2_585, 116, 5_997_415]
    );
    Ok(())
}
