// The floor of cases: the named cases of every field wider than one bit, in the order of their values from 0 up. From a
// value comes its case, and from a case its value. Written by catalogue/write.py from catalogue/cases.tsv. It checks
// nothing: a value without a case is read as the first. The `from`s are alike because each is its enum's cases and no
// more; a macro may write no impl here.
#![tactic(auto)]

ghost use Rattle.std.specs.Prelude.{◌≡◌};
ghost use Rattle.cases.specs.Cases.{signal_kind_of, signal_kind_no, signal_aspect_of, signal_aspect_no};
ghost use Rattle.cases.specs.Cases.{mixed_gauge_indication_of, mixed_gauge_indication_no, auto_route_indication_of};
ghost use Rattle.cases.specs.Cases.{auto_route_indication_no, changer_aspect_of, changer_aspect_no, board_aspect_of};
ghost use Rattle.cases.specs.Cases.{board_aspect_no, section_occupancy_of, section_occupancy_no, overlap_of};
ghost use Rattle.cases.specs.Cases.{overlap_no, gauge_presence_of, gauge_presence_no, points_section_occupancy_of};
ghost use Rattle.cases.specs.Cases.{points_section_occupancy_no, leg_occupancy_of, leg_occupancy_no, leg_shown_of};
ghost use Rattle.cases.specs.Cases.{leg_shown_no, points_detection_of, points_detection_no, points_locking_of};
ghost use Rattle.cases.specs.Cases.{points_locking_no, heater_indication_of, heater_indication_no};
ghost use Rattle.cases.specs.Cases.{earth_fault_indication_of, earth_fault_indication_no, boundary_movement_of};
ghost use Rattle.cases.specs.Cases.{boundary_movement_no, auto_route_of, auto_route_no, router_indication_of};
ghost use Rattle.cases.specs.Cases.{router_indication_no};

#[derive(Clone, Copy)]
pub enum SignalKind {
    Unknown, // Kind not known
    HighNoWhiteNoBlue, // High signal without white and blue lamps (prose 'Tipo0')
    HighWhiteOrBlue, // High signal with a white and/or blue lamp (prose 'Tipo1')
    Low, // Low (ground) signal (prose 'Tipo2')
}

impl From<u32> for SignalKind {
    ghost from_gives = { λ value case. case ≡ signal_kind_of value };

    fn from(value: u32) -> SignalKind {
        match value {
            0 => SignalKind::Unknown,
            1 => SignalKind::HighNoWhiteNoBlue,
            2 => SignalKind::HighWhiteOrBlue,
            3 => SignalKind::Low,
            _ => SignalKind::Unknown,
        }
    }
}

impl From<SignalKind> for u32 {
    ghost from_gives = { λ case value. value ≡ signal_kind_no case };

    fn from(case: SignalKind) -> u32 {
        case as u32
    }
}

#[derive(Clone, Copy)]
pub enum SignalAspect {
    Dark, // No lamp lit
    Red, // Red
    RedBlue, // Red and blue
    RedBlueFlashing, // Red and blue, flashing
    RedWhite, // Red and white
    RedWhiteFlashing, // Red and white, flashing
    White, // White (at least one white lamp lit)
    WhiteFlashing, // White flashing
    Yellow, // Yellow (with or without speed indication)
    YellowFlashing, // Yellow flashing
    GreenYellow, // Green and yellow (with or without speed indication)
    Green, // Green
    GreenFlashing, // Green flashing
}

impl From<u32> for SignalAspect {
    ghost from_gives = { λ value case. case ≡ signal_aspect_of value };

    fn from(value: u32) -> SignalAspect {
        match value {
            0 => SignalAspect::Dark,
            1 => SignalAspect::Red,
            2 => SignalAspect::RedBlue,
            3 => SignalAspect::RedBlueFlashing,
            4 => SignalAspect::RedWhite,
            5 => SignalAspect::RedWhiteFlashing,
            6 => SignalAspect::White,
            7 => SignalAspect::WhiteFlashing,
            8 => SignalAspect::Yellow,
            9 => SignalAspect::YellowFlashing,
            10 => SignalAspect::GreenYellow,
            11 => SignalAspect::Green,
            12 => SignalAspect::GreenFlashing,
            _ => SignalAspect::Dark,
        }
    }
}

impl From<SignalAspect> for u32 {
    ghost from_gives = { λ case value. value ≡ signal_aspect_no case };

    fn from(case: SignalAspect) -> u32 {
        case as u32
    }
}

#[derive(Clone, Copy)]
pub enum MixedGaugeIndication {
    NoThirdRail, // No third rail (not mixed gauge)
    AtRest, // At rest
    UicMovementSet, // UIC-gauge movement other than a shunt set (U green)
    UicShuntSet, // UIC-gauge shunt set (U blue)
    UicOccupancyConflict, // Occupancy incompatible with UIC gauge detected (U flashing red)
    ConventionalMovementSet, // Conventional-gauge movement other than a shunt set (C green)
    ConventionalShuntSet, // Conventional-gauge shunt set (C blue)
    ConventionalOccupancyConflict, // Occupancy incompatible with conventional gauge detected (C flashing red)
}

impl From<u32> for MixedGaugeIndication {
    ghost from_gives = { λ value case. case ≡ mixed_gauge_indication_of value };

    fn from(value: u32) -> MixedGaugeIndication {
        match value {
            0 => MixedGaugeIndication::NoThirdRail,
            1 => MixedGaugeIndication::AtRest,
            2 => MixedGaugeIndication::UicMovementSet,
            3 => MixedGaugeIndication::UicShuntSet,
            4 => MixedGaugeIndication::UicOccupancyConflict,
            5 => MixedGaugeIndication::ConventionalMovementSet,
            6 => MixedGaugeIndication::ConventionalShuntSet,
            7 => MixedGaugeIndication::ConventionalOccupancyConflict,
            _ => MixedGaugeIndication::NoThirdRail,
        }
    }
}

impl From<MixedGaugeIndication> for u32 {
    ghost from_gives = { λ case value. value ≡ mixed_gauge_indication_no case };

    fn from(case: MixedGaugeIndication) -> u32 {
        case as u32
    }
}

#[derive(Clone, Copy)]
pub enum AutoRouteIndication {
    GreenSteady, // F steady green
    GreenFlashing, // F flashing green
    RedSteady, // F steady red
    RedFlashing, // F flashing red
}

impl From<u32> for AutoRouteIndication {
    ghost from_gives = { λ value case. case ≡ auto_route_indication_of value };

    fn from(value: u32) -> AutoRouteIndication {
        match value {
            0 => AutoRouteIndication::GreenSteady,
            1 => AutoRouteIndication::GreenFlashing,
            2 => AutoRouteIndication::RedSteady,
            3 => AutoRouteIndication::RedFlashing,
            _ => AutoRouteIndication::GreenSteady,
        }
    }
}

impl From<AutoRouteIndication> for u32 {
    ghost from_gives = { λ case value. value ≡ auto_route_indication_no case };

    fn from(case: AutoRouteIndication) -> u32 {
        case as u32
    }
}

#[derive(Clone, Copy)]
pub enum ChangerAspect {
    Dark, // No letter lit
    FixedT, // Letter T, white, steady
    FixedC, // Letter C, white, steady
    FlashingT, // Letter T, white, flashing
}

impl From<u32> for ChangerAspect {
    ghost from_gives = { λ value case. case ≡ changer_aspect_of value };

    fn from(value: u32) -> ChangerAspect {
        match value {
            0 => ChangerAspect::Dark,
            1 => ChangerAspect::FixedT,
            2 => ChangerAspect::FixedC,
            3 => ChangerAspect::FlashingT,
            _ => ChangerAspect::Dark,
        }
    }
}

impl From<ChangerAspect> for u32 {
    ghost from_gives = { λ case value. value ≡ changer_aspect_no case };

    fn from(case: ChangerAspect) -> u32 {
        case as u32
    }
}

#[derive(Clone, Copy)]
pub enum BoardAspect {
    Red, // Drawn red
    Blue, // Drawn blue
    White, // Drawn white
}

impl From<u32> for BoardAspect {
    ghost from_gives = { λ value case. case ≡ board_aspect_of value };

    fn from(value: u32) -> BoardAspect {
        match value {
            0 => BoardAspect::Red,
            1 => BoardAspect::Blue,
            2 => BoardAspect::White,
            _ => BoardAspect::Red,
        }
    }
}

impl From<BoardAspect> for u32 {
    ghost from_gives = { λ case value. value ≡ board_aspect_no case };

    fn from(case: BoardAspect) -> u32 {
        case as u32
    }
}

#[derive(Clone, Copy)]
pub enum SectionOccupancy {
    ClearIdle, // Clear, no movement set (shown yellow)
    ClearMovementOrBlockSet, // Clear, a movement other than a centralised shunt, or a block, is set (green)
    ClearShuntSet, // Clear, a centralised shunt is set (blue)
    Occupied, // Occupied (red)
}

impl From<u32> for SectionOccupancy {
    ghost from_gives = { λ value case. case ≡ section_occupancy_of value };

    fn from(value: u32) -> SectionOccupancy {
        match value {
            0 => SectionOccupancy::ClearIdle,
            1 => SectionOccupancy::ClearMovementOrBlockSet,
            2 => SectionOccupancy::ClearShuntSet,
            3 => SectionOccupancy::Occupied,
            _ => SectionOccupancy::ClearIdle,
        }
    }
}

impl From<SectionOccupancy> for u32 {
    ghost from_gives = { λ case value. value ≡ section_occupancy_no case };

    fn from(case: SectionOccupancy) -> u32 {
        case as u32
    }
}

#[derive(Clone, Copy)]
pub enum Overlap {
    NoOverlap, // No overlap
    MovementOverlap, // Overlap of a movement other than a centralised shunt (green)
    ShuntOverlap, // Overlap of a centralised shunt (blue)
}

impl From<u32> for Overlap {
    ghost from_gives = { λ value case. case ≡ overlap_of value };

    fn from(value: u32) -> Overlap {
        match value {
            0 => Overlap::NoOverlap,
            1 => Overlap::MovementOverlap,
            2 => Overlap::ShuntOverlap,
            _ => Overlap::NoOverlap,
        }
    }
}

impl From<Overlap> for u32 {
    ghost from_gives = { λ case value. value ≡ overlap_no case };

    fn from(case: Overlap) -> u32 {
        case as u32
    }
}

#[derive(Clone, Copy)]
pub enum GaugePresence {
    NotShown, // No gauge indication
    NoTrain, // No train present (U and C yellow)
    UicTrain, // Train of UIC (standard) gauge present (U red, C yellow)
    ConventionalTrain, // Train of conventional (Iberian) gauge present (U yellow, C red)
    BothGauges, // Trains of both gauges present (U and C red)
}

impl From<u32> for GaugePresence {
    ghost from_gives = { λ value case. case ≡ gauge_presence_of value };

    fn from(value: u32) -> GaugePresence {
        match value {
            0 => GaugePresence::NotShown,
            1 => GaugePresence::NoTrain,
            2 => GaugePresence::UicTrain,
            3 => GaugePresence::ConventionalTrain,
            4 => GaugePresence::BothGauges,
            _ => GaugePresence::NotShown,
        }
    }
}

impl From<GaugePresence> for u32 {
    ghost from_gives = { λ case value. value ≡ gauge_presence_no case };

    fn from(case: GaugePresence) -> u32 {
        case as u32
    }
}

#[derive(Clone, Copy)]
pub enum PointsSectionOccupancy {
    Clear, // Clear
    Occupied, // Occupied
}

impl From<u32> for PointsSectionOccupancy {
    ghost from_gives = { λ value case. case ≡ points_section_occupancy_of value };

    fn from(value: u32) -> PointsSectionOccupancy {
        match value {
            0 => PointsSectionOccupancy::Clear,
            1 => PointsSectionOccupancy::Occupied,
            _ => PointsSectionOccupancy::Clear,
        }
    }
}

impl From<PointsSectionOccupancy> for u32 {
    ghost from_gives = { λ case value. value ≡ points_section_occupancy_no case };

    fn from(case: PointsSectionOccupancy) -> u32 {
        case as u32
    }
}

#[derive(Clone, Copy)]
pub enum LegOccupancy {
    ClearIdle, // Clear, no movement set (shown yellow)
    ClearMovementSet, // Clear, a movement other than a centralised shunt is set (green)
    ClearShuntSet, // Clear, a centralised shunt is set (blue)
    Occupied, // Occupied (red)
}

impl From<u32> for LegOccupancy {
    ghost from_gives = { λ value case. case ≡ leg_occupancy_of value };

    fn from(value: u32) -> LegOccupancy {
        match value {
            0 => LegOccupancy::ClearIdle,
            1 => LegOccupancy::ClearMovementSet,
            2 => LegOccupancy::ClearShuntSet,
            3 => LegOccupancy::Occupied,
            _ => LegOccupancy::ClearIdle,
        }
    }
}

impl From<LegOccupancy> for u32 {
    ghost from_gives = { λ case value. value ≡ leg_occupancy_no case };

    fn from(case: LegOccupancy) -> u32 {
        case as u32
    }
}

#[derive(Clone, Copy)]
pub enum LegShown {
    NormalAndReverse, // Both directions, normal and reverse
    NormalOnly, // Normal direction only
    ReverseOnly, // Reverse direction only
}

impl From<u32> for LegShown {
    ghost from_gives = { λ value case. case ≡ leg_shown_of value };

    fn from(value: u32) -> LegShown {
        match value {
            0 => LegShown::NormalAndReverse,
            1 => LegShown::NormalOnly,
            2 => LegShown::ReverseOnly,
            _ => LegShown::NormalAndReverse,
        }
    }
}

impl From<LegShown> for u32 {
    ghost from_gives = { λ case value. value ≡ leg_shown_no case };

    fn from(case: LegShown) -> u32 {
        case as u32
    }
}

#[derive(Clone, Copy)]
pub enum PointsDetection {
    NotDetected, // Not detected in either position; points trailed (run through)
    CalledNormal, // Not detected; called to normal, or moving to normal because called
    CalledReverse, // Not detected; called to reverse, or moving to reverse because called
    DetectedNormal, // Detected normal
    DetectedReverse, // Detected reverse
}

impl From<u32> for PointsDetection {
    ghost from_gives = { λ value case. case ≡ points_detection_of value };

    fn from(value: u32) -> PointsDetection {
        match value {
            0 => PointsDetection::NotDetected,
            1 => PointsDetection::CalledNormal,
            2 => PointsDetection::CalledReverse,
            3 => PointsDetection::DetectedNormal,
            4 => PointsDetection::DetectedReverse,
            _ => PointsDetection::NotDetected,
        }
    }
}

impl From<PointsDetection> for u32 {
    ghost from_gives = { λ case value. value ≡ points_detection_no case };

    fn from(case: PointsDetection) -> u32 {
        case as u32
    }
}

#[derive(Clone, Copy)]
pub enum PointsLocking {
    Free, // Points not locked by the interlocking
    Locked, // Points locked
    MovementRequired, // Points required to move
    ReleasedForMaintenance, // Points authorised for maintenance
}

impl From<u32> for PointsLocking {
    ghost from_gives = { λ value case. case ≡ points_locking_of value };

    fn from(value: u32) -> PointsLocking {
        match value {
            0 => PointsLocking::Free,
            1 => PointsLocking::Locked,
            2 => PointsLocking::MovementRequired,
            3 => PointsLocking::ReleasedForMaintenance,
            _ => PointsLocking::Free,
        }
    }
}

impl From<PointsLocking> for u32 {
    ghost from_gives = { λ case value. value ≡ points_locking_no case };

    fn from(case: PointsLocking) -> u32 {
        case as u32
    }
}

#[derive(Clone, Copy)]
pub enum HeaterIndication {
    NotShown, // CF not shown
    Yellow, // CF yellow
    Green, // CF green
    RedFlashing, // CF flashing red
}

impl From<u32> for HeaterIndication {
    ghost from_gives = { λ value case. case ≡ heater_indication_of value };

    fn from(value: u32) -> HeaterIndication {
        match value {
            0 => HeaterIndication::NotShown,
            1 => HeaterIndication::Yellow,
            2 => HeaterIndication::Green,
            3 => HeaterIndication::RedFlashing,
            _ => HeaterIndication::NotShown,
        }
    }
}

impl From<HeaterIndication> for u32 {
    ghost from_gives = { λ case value. value ≡ heater_indication_no case };

    fn from(case: HeaterIndication) -> u32 {
        case as u32
    }
}

#[derive(Clone, Copy)]
pub enum EarthFaultIndication {
    NotShown, // DT not shown
    EarthFault, // DT yellow: earth fault on insulated equipment
    TestRunning, // DT flashing yellow: earth-fault check of insulated equipment running
}

impl From<u32> for EarthFaultIndication {
    ghost from_gives = { λ value case. case ≡ earth_fault_indication_of value };

    fn from(value: u32) -> EarthFaultIndication {
        match value {
            0 => EarthFaultIndication::NotShown,
            1 => EarthFaultIndication::EarthFault,
            2 => EarthFaultIndication::TestRunning,
            _ => EarthFaultIndication::NotShown,
        }
    }
}

impl From<EarthFaultIndication> for u32 {
    ghost from_gives = { λ case value. value ≡ earth_fault_indication_no case };

    fn from(case: EarthFaultIndication) -> u32 {
        case as u32
    }
}

#[derive(Clone, Copy)]
pub enum BoundaryMovement {
    AtRest, // At rest
    RouteSignalPending, // Main route called; opening, for the route, of the continuing signal pending
    RouteSignalOpen, // Main route called; the continuing signal has opened for the route
    OverrideSignalPending, // Authorised passing (rebase autorizado) called; opening of the continuing signal for it pending
    OverrideSignalOpen, // Authorised passing called; the continuing signal has opened for it
    ShuntSignalPending, // Centralised shunt called; opening of the continuing signal for the shunt pending
    ShuntSignalOpen, // Centralised shunt called; the continuing signal has opened for the shunt
}

impl From<u32> for BoundaryMovement {
    ghost from_gives = { λ value case. case ≡ boundary_movement_of value };

    fn from(value: u32) -> BoundaryMovement {
        match value {
            0 => BoundaryMovement::AtRest,
            1 => BoundaryMovement::RouteSignalPending,
            2 => BoundaryMovement::RouteSignalOpen,
            3 => BoundaryMovement::OverrideSignalPending,
            4 => BoundaryMovement::OverrideSignalOpen,
            5 => BoundaryMovement::ShuntSignalPending,
            6 => BoundaryMovement::ShuntSignalOpen,
            _ => BoundaryMovement::AtRest,
        }
    }
}

impl From<BoundaryMovement> for u32 {
    ghost from_gives = { λ case value. value ≡ boundary_movement_no case };

    fn from(case: BoundaryMovement) -> u32 {
        case as u32
    }
}

#[derive(Clone, Copy)]
pub enum AutoRoute {
    NotShown, // F not shown
    GreenSteady, // F steady green
    GreenFlashing, // F flashing green
    RedFlashing, // F flashing red
}

impl From<u32> for AutoRoute {
    ghost from_gives = { λ value case. case ≡ auto_route_of value };

    fn from(value: u32) -> AutoRoute {
        match value {
            0 => AutoRoute::NotShown,
            1 => AutoRoute::GreenSteady,
            2 => AutoRoute::GreenFlashing,
            3 => AutoRoute::RedFlashing,
            _ => AutoRoute::NotShown,
        }
    }
}

impl From<AutoRoute> for u32 {
    ghost from_gives = { λ case value. value ≡ auto_route_no case };

    fn from(case: AutoRoute) -> u32 {
        case as u32
    }
}

#[derive(Clone, Copy)]
pub enum RouterIndication {
    NotShown, // No indication of a GRP or ARS router
    ManualBlock, // GRP or ARS router, manual block
    AutomaticBlock, // GRP or ARS router, automatic block
}

impl From<u32> for RouterIndication {
    ghost from_gives = { λ value case. case ≡ router_indication_of value };

    fn from(value: u32) -> RouterIndication {
        match value {
            0 => RouterIndication::NotShown,
            1 => RouterIndication::ManualBlock,
            2 => RouterIndication::AutomaticBlock,
            _ => RouterIndication::NotShown,
        }
    }
}

impl From<RouterIndication> for u32 {
    ghost from_gives = { λ case value. value ≡ router_indication_no case };

    fn from(case: RouterIndication) -> u32 {
        case as u32
    }
}
