// Amounts of one hour on a segment, as each part of it hands them on. All are depths in microinches.

// What the land itself holds.
#[derive(Clone, Copy, Default)]
pub struct Zones {
    pub interception: u64,
    pub upper: u64,
    pub lower: u64,
}

// Rain before it reaches the ground: what runs straight off, what interception holds then, and the supply to the ground.
#[derive(Clone, Copy)]
pub struct Surface {
    pub runoff: u64,
    pub interception: u64,
    pub supply: u64,
}

// The supply, divided.
#[derive(Clone, Copy)]
pub struct Division {
    pub infiltration: u64,
    pub interflow: u64,
    pub slope: u64,
}

// What percolation leaves in the upper zone, what the lower zone holds then, and the inflow of groundwater.
#[derive(Clone, Copy)]
pub struct Seepage {
    pub upper: u64,
    pub lower: u64,
    pub groundwater: u64,
}

// What evaporation leaves in the zones, what it took, and the demand that is passed on to groundwater.
#[derive(Clone, Copy)]
pub struct Drying {
    pub zones: Zones,
    pub evaporated: u64,
    pub demand: u64,
}

// The whole hour: the zones after it, what leaves them for the stream and the three storages, and groundwater's demand.
#[derive(Clone, Copy)]
pub struct Flows {
    pub zones: Zones,
    pub runoff: u64,
    pub slope: u64,
    pub interflow: u64,
    pub groundwater: u64,
    pub evaporated: u64,
    pub demand: u64,
}
