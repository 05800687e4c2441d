// A checked card: fourteen figures, each within its range. Only the check makes one.
ghost use Rattle.std.specs.Prelude.{◌≡◌, ℕ, ◌≤◌};

pub(crate) mod making;

#[derive(Clone, Copy)]
pub struct Card {
    area: u64,
    impv: u64,
    cepsc: u64,
    uzsn: u64,
    lzsn: u64,
    infilt: u64,
    intfw: u64,
    lzetp: u64,
    deepfr: u64,
    agwetp: u64,
    ovk: u64,
    ifwk: u64,
    gwk: u64,
    chk: u64,
    ghost area_range: { (1 ≤ area) × (area ≤ 5000) },
    ghost impv_range: { impv ≤ 1048576 },
    ghost cepsc_range: { cepsc ≤ 400000 },
    ghost uzsn_range: { (50000 ≤ uzsn) × (uzsn ≤ 2000000) },
    ghost lzsn_range: { (2000000 ≤ lzsn) × (lzsn ≤ 15000000) },
    ghost infilt_range: { (1000 ≤ infilt) × (infilt ≤ 500000) },
    ghost intfw_range: { (100 ≤ intfw) × (intfw ≤ 1000) },
    ghost lzetp_range: { (104858 ≤ lzetp) × (lzetp ≤ 943718) },
    ghost deepfr_range: { deepfr ≤ 524288 },
    ghost agwetp_range: { agwetp ≤ 209715 },
    ghost ovk_range: { (1 ≤ ovk) × (ovk ≤ 100000) },
    ghost ifwk_range: { (1 ≤ ifwk) × (ifwk ≤ 1048576) },
    ghost gwk_range: { (1 ≤ gwk) × (gwk ≤ 1048576) },
    ghost chk_range: { (1 ≤ chk) × (chk ≤ 1048576) },
}

impl Card {
    // AREA: the area, in acres.
    pub fn area(&self) -> u64
        ensures value { result ≡ self.now.area }
        ensures range { (1 ≤ result) × (result ≤ 5000) }
    {
        self.area
    }

    // IMPV: the part of the rain that falls on impervious ground, of 1,048,576.
    pub fn impervious(&self) -> u64
        ensures value { result ≡ self.now.impv }
        ensures range { result ≤ 1048576 }
    {
        self.impv
    }

    // CEPSC: what interception can hold, in microinches.
    pub fn interception_capacity(&self) -> u64
        ensures value { result ≡ self.now.cepsc }
        ensures range { result ≤ 400000 }
    {
        self.cepsc
    }

    // UZSN: the nominal content of the upper zone, in microinches.
    pub fn upper_nominal(&self) -> u64
        ensures value { result ≡ self.now.uzsn }
        ensures range { (50000 ≤ result) × (result ≤ 2000000) }
    {
        self.uzsn
    }

    // LZSN: the nominal content of the lower zone, in microinches.
    pub fn lower_nominal(&self) -> u64
        ensures value { result ≡ self.now.lzsn }
        ensures range { (2000000 ≤ result) × (result ≤ 15000000) }
    {
        self.lzsn
    }

    // INFILT: the index of the soil's infiltration capacity.
    pub fn infiltration(&self) -> u64
        ensures value { result ≡ self.now.infilt }
        ensures range { (1000 ≤ result) × (result ≤ 500000) }
    {
        self.infilt
    }

    // INTFW: the interflow ratio, in hundredths.
    pub fn interflow_ratio(&self) -> u64
        ensures value { result ≡ self.now.intfw }
        ensures range { (100 ≤ result) × (result ≤ 1000) }
    {
        self.intfw
    }

    // LZETP: the evapotranspiration of the lower zone, by its deep-rooted plants, in parts of 1,048,576.
    pub fn lower_evapotranspiration(&self) -> u64
        ensures value { result ≡ self.now.lzetp }
        ensures range { (104858 ≤ result) × (result ≤ 943718) }
    {
        self.lzetp
    }

    // DEEPFR: the part of groundwater's inflow that is lost deep, of 1,048,576.
    pub fn deep_fraction(&self) -> u64
        ensures value { result ≡ self.now.deepfr }
        ensures range { result ≤ 524288 }
    {
        self.deepfr
    }

    // AGWETP: the part of the demand left that groundwater meets, of 1,048,576.
    pub fn groundwater_evapotranspiration(&self) -> u64
        ensures value { result ≡ self.now.agwetp }
        ensures range { result ≤ 209715 }
    {
        self.agwetp
    }

    // OVK: the rate of overland flow.
    pub fn overland_rate(&self) -> u64
        ensures value { result ≡ self.now.ovk }
        ensures range { (1 ≤ result) × (result ≤ 100000) }
    {
        self.ovk
    }

    // IFWK: what interflow releases each hour, in parts of 1,048,576.
    pub fn interflow_rate(&self) -> u64
        ensures value { result ≡ self.now.ifwk }
        ensures range { (1 ≤ result) × (result ≤ 1048576) }
    {
        self.ifwk
    }

    // GWK: what groundwater releases each hour, in parts of 1,048,576.
    pub fn groundwater_rate(&self) -> u64
        ensures value { result ≡ self.now.gwk }
        ensures range { (1 ≤ result) × (result ≤ 1048576) }
    {
        self.gwk
    }

    // CHK: what the channel releases each hour, in parts of 1,048,576.
    pub fn channel_rate(&self) -> u64
        ensures value { result ≡ self.now.chk }
        ensures range { (1 ≤ result) × (result ≤ 1048576) }
    {
        self.chk
    }
}
