// The names of the fields of the trace header, with their places and what they mean: the tables of
// the manual are made from these rows.
use crate::place::Place;
use num_order::Kind;

macro_rules! place {
    ($extension:expr, $byte:expr, $size:expr, $signed:expr) => {
        Place {
            extension: $extension,
            byte: $byte,
            kind: Kind {
                size: $size,
                signed: $signed,
            },
        }
    };
}

// A signed number of the main header.
macro_rules! signed {
    ($byte:expr, $size:expr) => {
        place!(0, $byte, $size, true)
    };
}

// An unsigned one.
macro_rules! unsigned {
    ($byte:expr, $size:expr) => {
        place!(0, $byte, $size, false)
    };
}

// A signed number of the first trace header extension.
macro_rules! extension_signed {
    ($byte:expr, $size:expr) => {
        place!(1, $byte, $size, true)
    };
}

// An unsigned one.
macro_rules! extension_unsigned {
    ($byte:expr, $size:expr) => {
        place!(1, $byte, $size, false)
    };
}

// The fields of the standard that are whole numbers, in the order of bytes: the main header, then
// its first extension.
pub(crate) static HEADER_NAMES: [(&str, Place); 99] = [
    ("sequence_line", signed!(1, 4)), // number of the trace in its line
    ("sequence_file", signed!(5, 4)), // number of the trace in the file
    ("field_record", signed!(9, 4)), // original field record
    ("trace_in_record", signed!(13, 4)), // number of the trace in its field record
    ("source_point", signed!(17, 4)), // energy source point
    ("ensemble", signed!(21, 4)), // ensemble (CDP, CMP) number
    ("trace_in_ensemble", signed!(25, 4)), // number of the trace in its ensemble
    ("trace_code", signed!(29, 2)), // what the trace is: 1 is time-domain seismic data, 2 dead, 3 dummy
    ("vertically_summed", signed!(31, 2)), // number of traces that were summed vertically
    ("horizontally_stacked", signed!(33, 2)), // number of traces that were stacked horizontally
    ("data_use", signed!(35, 2)), // 1 production, 2 test
    ("distance", signed!(37, 4)), // distance from source to receiver group
    ("receiver_elevation", signed!(41, 4)), // elevation of the receiver group
    ("source_elevation", signed!(45, 4)), // elevation of the surface at the source
    ("source_depth", signed!(49, 4)), // depth of the source below the surface
    ("receiver_datum", signed!(53, 4)), // datum elevation at the receiver group
    ("source_datum", signed!(57, 4)), // datum elevation at the source
    ("source_water_depth", signed!(61, 4)), // height of the water column at the source
    ("group_water_depth", signed!(65, 4)), // height of the water column at the receiver group
    ("elevation_scalar", signed!(69, 2)), // scalar of bytes 41-68
    ("coordinate_scalar", signed!(71, 2)), // scalar of bytes 73-88 and 181-188
    ("source_x", signed!(73, 4)), // X of the source
    ("source_y", signed!(77, 4)), // Y of the source
    ("group_x", signed!(81, 4)), // X of the receiver group
    ("group_y", signed!(85, 4)), // Y of the receiver group
    ("coordinate_units", signed!(89, 2)), // 1 length, 2 seconds of arc, 3 degrees, 4 degrees, minutes, seconds
    ("weathering_velocity", signed!(91, 2)), // weathering velocity
    ("subweathering_velocity", signed!(93, 2)), // velocity below the weathering
    ("source_uphole", signed!(95, 2)), // uphole time at the source, in milliseconds
    ("group_uphole", signed!(97, 2)), // uphole time at the receiver group, in milliseconds
    ("source_static", signed!(99, 2)), // static correction of the source, in milliseconds
    ("group_static", signed!(101, 2)), // static correction of the receiver group, in milliseconds
    ("total_static", signed!(103, 2)), // total static that was applied, in milliseconds
    ("lag_a", signed!(105, 2)), // time from the end of the trace header to the time break, in milliseconds
    ("lag_b", signed!(107, 2)), // time from the time break to the start of the source, in milliseconds
    ("delay", signed!(109, 2)), // delay recording time, in milliseconds
    ("mute_start", signed!(111, 2)), // start of the mute, in milliseconds
    ("mute_end", signed!(113, 2)), // end of the mute, in milliseconds
    ("samples", unsigned!(115, 2)), // number of samples of the trace
    ("interval", unsigned!(117, 2)), // sample interval of the trace, in microseconds
    ("gain_type", signed!(119, 2)), // gain of the instruments: 1 fixed, 2 binary, 3 floating point
    ("instrument_gain", signed!(121, 2)), // gain constant of the instruments, in decibels
    ("initial_gain", signed!(123, 2)), // early or initial gain of the instruments, in decibels
    ("correlated", signed!(125, 2)), // 1 not correlated, 2 correlated
    ("sweep_start", signed!(127, 2)), // frequency of the sweep at its start, in hertz
    ("sweep_end", signed!(129, 2)), // frequency of the sweep at its end, in hertz
    ("sweep_length", signed!(131, 2)), // length of the sweep, in milliseconds
    ("sweep_type", signed!(133, 2)), // 1 linear, 2 parabolic, 3 exponential, 4 other
    ("taper_start", signed!(135, 2)), // length of the sweep's taper at its start, in milliseconds
    ("taper_end", signed!(137, 2)), // length of the sweep's taper at its end, in milliseconds
    ("taper_type", signed!(139, 2)), // 1 linear, 2 cosine squared, 3 other
    ("alias_frequency", signed!(141, 2)), // frequency of the alias filter, in hertz
    ("alias_slope", signed!(143, 2)), // slope of the alias filter, in decibels an octave
    ("notch_frequency", signed!(145, 2)), // frequency of the notch filter, in hertz
    ("notch_slope", signed!(147, 2)), // slope of the notch filter, in decibels an octave
    ("low_cut", signed!(149, 2)), // low-cut frequency, in hertz
    ("high_cut", signed!(151, 2)), // high-cut frequency, in hertz
    ("low_cut_slope", signed!(153, 2)), // slope of the low cut, in decibels an octave
    ("high_cut_slope", signed!(155, 2)), // slope of the high cut, in decibels an octave
    ("year", signed!(157, 2)), // year recorded
    ("day", signed!(159, 2)), // day of the year
    ("hour", signed!(161, 2)), // hour of the day
    ("minute", signed!(163, 2)), // minute of the hour
    ("second", signed!(165, 2)), // second of the minute
    ("time_basis", signed!(167, 2)), // 1 local, 2 GMT, 3 other, 4 UTC, 5 GPS
    ("weighting", signed!(169, 2)), // trace weighting factor
    ("group_roll", signed!(171, 2)), // geophone group number of roll switch position one
    ("group_first", signed!(173, 2)), // geophone group number of the field record's first trace
    ("group_last", signed!(175, 2)), // geophone group number of the field record's last trace
    ("gap_size", signed!(177, 2)), // number of groups that were dropped
    ("over_travel", signed!(179, 2)), // over travel of the taper: 1 down or behind, 2 up or ahead
    ("ensemble_x", signed!(181, 4)), // X of the ensemble (CDP) position
    ("ensemble_y", signed!(185, 4)), // Y of the ensemble (CDP) position
    ("inline_number", signed!(189, 4)), // inline number
    ("crossline_number", signed!(193, 4)), // crossline number
    ("shotpoint", signed!(197, 4)), // shotpoint number
    ("shotpoint_scalar", signed!(201, 2)), // scalar of the shotpoint number
    ("measurement_unit", signed!(203, 2)), // unit of the samples
    ("transduction_mantissa", signed!(205, 4)), // transduction constant, its mantissa
    ("transduction_exponent", signed!(209, 2)), // transduction constant, its power of ten
    ("transduction_unit", signed!(211, 2)), // unit of the samples times the transduction constant
    ("device_identifier", signed!(213, 2)), // identifier of the device or the trace
    ("time_scalar", signed!(215, 2)), // scalar of the times in bytes 95-114
    ("source_type", signed!(217, 2)), // type and orientation of the source
    ("source_energy_vertical", signed!(219, 2)), // direction of the source's energy, vertical, in tenths of a degree
    ("source_energy_crossline", signed!(221, 2)), // direction of the source's energy, crossline, in tenths of a degree
    ("source_energy_inline", signed!(223, 2)), // direction of the source's energy, inline, in tenths of a degree
    ("source_measure_mantissa", signed!(225, 4)), // source measurement, its mantissa
    ("source_measure_exponent", signed!(229, 2)), // source measurement, its power of ten
    ("source_measure_unit", signed!(231, 2)), // unit of the source measurement
    ("ext_sequence_line", extension_unsigned!(1, 8)), // number of the trace in its line, where it is not zero
    ("ext_sequence_file", extension_unsigned!(9, 8)), // number of the trace in the file, where it is not zero
    ("ext_field_record", extension_signed!(17, 8)), // original field record, where it is not zero
    ("ext_ensemble", extension_signed!(25, 8)), // ensemble (CDP, CMP) number, where it is not zero
    ("ext_samples", extension_unsigned!(137, 4)), // number of samples of the trace, where it is not zero
    ("ext_nanoseconds", extension_signed!(141, 4)), // nanoseconds behind the second of the minute
    ("ext_cable", extension_signed!(153, 4)), // number of the cable, or of the recording device
    ("ext_count", extension_unsigned!(157, 2)), // number of header extensions of the trace, 0 for the most
    ("ext_last_trace", extension_signed!(159, 2)), // last trace flag
];

// The words of Seismic Unix.
pub(crate) static UNIX_NAMES: [(&str, Place); 71] = [
    ("tracl", signed!(1, 4)),
    ("tracr", signed!(5, 4)),
    ("fldr", signed!(9, 4)),
    ("tracf", signed!(13, 4)),
    ("ep", signed!(17, 4)),
    ("cdp", signed!(21, 4)),
    ("cdpt", signed!(25, 4)),
    ("trid", signed!(29, 2)),
    ("nvs", signed!(31, 2)),
    ("nhs", signed!(33, 2)),
    ("duse", signed!(35, 2)),
    ("offset", signed!(37, 4)),
    ("gelev", signed!(41, 4)),
    ("selev", signed!(45, 4)),
    ("sdepth", signed!(49, 4)),
    ("gdel", signed!(53, 4)),
    ("sdel", signed!(57, 4)),
    ("swdep", signed!(61, 4)),
    ("gwdep", signed!(65, 4)),
    ("scalel", signed!(69, 2)),
    ("scalco", signed!(71, 2)),
    ("sx", signed!(73, 4)),
    ("sy", signed!(77, 4)),
    ("gx", signed!(81, 4)),
    ("gy", signed!(85, 4)),
    ("counit", signed!(89, 2)),
    ("wevel", signed!(91, 2)),
    ("swevel", signed!(93, 2)),
    ("sut", signed!(95, 2)),
    ("gut", signed!(97, 2)),
    ("sstat", signed!(99, 2)),
    ("gstat", signed!(101, 2)),
    ("tstat", signed!(103, 2)),
    ("laga", signed!(105, 2)),
    ("lagb", signed!(107, 2)),
    ("delrt", signed!(109, 2)),
    ("muts", signed!(111, 2)),
    ("mute", signed!(113, 2)),
    ("ns", unsigned!(115, 2)),
    ("dt", unsigned!(117, 2)),
    ("gain", signed!(119, 2)),
    ("igc", signed!(121, 2)),
    ("igi", signed!(123, 2)),
    ("corr", signed!(125, 2)),
    ("sfs", signed!(127, 2)),
    ("sfe", signed!(129, 2)),
    ("slen", signed!(131, 2)),
    ("styp", signed!(133, 2)),
    ("stas", signed!(135, 2)),
    ("stae", signed!(137, 2)),
    ("tatyp", signed!(139, 2)),
    ("afilf", signed!(141, 2)),
    ("afils", signed!(143, 2)),
    ("nofilf", signed!(145, 2)),
    ("nofils", signed!(147, 2)),
    ("lcf", signed!(149, 2)),
    ("hcf", signed!(151, 2)),
    ("lcs", signed!(153, 2)),
    ("hcs", signed!(155, 2)),
    ("year", signed!(157, 2)),
    ("day", signed!(159, 2)),
    ("hour", signed!(161, 2)),
    ("minute", signed!(163, 2)),
    ("sec", signed!(165, 2)),
    ("timbas", signed!(167, 2)),
    ("trwf", signed!(169, 2)),
    ("grnors", signed!(171, 2)),
    ("grnofr", signed!(173, 2)),
    ("grnlof", signed!(175, 2)),
    ("gaps", signed!(177, 2)),
    ("otrav", signed!(179, 2)),
];

// The names of segyio, as it writes them; behind them the words of its module `segyio.su` that
// Seismic Unix does not have.
pub(crate) static SEGYIO_NAMES: [(&str, Place); 110] = [
    ("TRACE_SEQUENCE_LINE", signed!(1, 4)),
    ("TRACE_SEQUENCE_FILE", signed!(5, 4)),
    ("FieldRecord", signed!(9, 4)),
    ("TraceNumber", signed!(13, 4)),
    ("EnergySourcePoint", signed!(17, 4)),
    ("CDP", signed!(21, 4)),
    ("CDP_TRACE", signed!(25, 4)),
    ("TraceIdentificationCode", signed!(29, 2)),
    ("NSummedTraces", signed!(31, 2)),
    ("NStackedTraces", signed!(33, 2)),
    ("DataUse", signed!(35, 2)),
    ("offset", signed!(37, 4)),
    ("ReceiverGroupElevation", signed!(41, 4)),
    ("SourceSurfaceElevation", signed!(45, 4)),
    ("SourceDepth", signed!(49, 4)),
    ("ReceiverDatumElevation", signed!(53, 4)),
    ("SourceDatumElevation", signed!(57, 4)),
    ("SourceWaterDepth", signed!(61, 4)),
    ("GroupWaterDepth", signed!(65, 4)),
    ("ElevationScalar", signed!(69, 2)),
    ("SourceGroupScalar", signed!(71, 2)),
    ("SourceX", signed!(73, 4)),
    ("SourceY", signed!(77, 4)),
    ("GroupX", signed!(81, 4)),
    ("GroupY", signed!(85, 4)),
    ("CoordinateUnits", signed!(89, 2)),
    ("WeatheringVelocity", signed!(91, 2)),
    ("SubWeatheringVelocity", signed!(93, 2)),
    ("SourceUpholeTime", signed!(95, 2)),
    ("GroupUpholeTime", signed!(97, 2)),
    ("SourceStaticCorrection", signed!(99, 2)),
    ("GroupStaticCorrection", signed!(101, 2)),
    ("TotalStaticApplied", signed!(103, 2)),
    ("LagTimeA", signed!(105, 2)),
    ("LagTimeB", signed!(107, 2)),
    ("DelayRecordingTime", signed!(109, 2)),
    ("MuteTimeStart", signed!(111, 2)),
    ("MuteTimeEND", signed!(113, 2)),
    ("TRACE_SAMPLE_COUNT", unsigned!(115, 2)),
    ("TRACE_SAMPLE_INTERVAL", unsigned!(117, 2)),
    ("GainType", signed!(119, 2)),
    ("InstrumentGainConstant", signed!(121, 2)),
    ("InstrumentInitialGain", signed!(123, 2)),
    ("Correlated", signed!(125, 2)),
    ("SweepFrequencyStart", signed!(127, 2)),
    ("SweepFrequencyEnd", signed!(129, 2)),
    ("SweepLength", signed!(131, 2)),
    ("SweepType", signed!(133, 2)),
    ("SweepTraceTaperLengthStart", signed!(135, 2)),
    ("SweepTraceTaperLengthEnd", signed!(137, 2)),
    ("TaperType", signed!(139, 2)),
    ("AliasFilterFrequency", signed!(141, 2)),
    ("AliasFilterSlope", signed!(143, 2)),
    ("NotchFilterFrequency", signed!(145, 2)),
    ("NotchFilterSlope", signed!(147, 2)),
    ("LowCutFrequency", signed!(149, 2)),
    ("HighCutFrequency", signed!(151, 2)),
    ("LowCutSlope", signed!(153, 2)),
    ("HighCutSlope", signed!(155, 2)),
    ("YearDataRecorded", signed!(157, 2)),
    ("DayOfYear", signed!(159, 2)),
    ("HourOfDay", signed!(161, 2)),
    ("MinuteOfHour", signed!(163, 2)),
    ("SecondOfMinute", signed!(165, 2)),
    ("TimeBaseCode", signed!(167, 2)),
    ("TraceWeightingFactor", signed!(169, 2)),
    ("GeophoneGroupNumberRoll1", signed!(171, 2)),
    ("GeophoneGroupNumberFirstTraceOrigField", signed!(173, 2)),
    ("GeophoneGroupNumberLastTraceOrigField", signed!(175, 2)),
    ("GapSize", signed!(177, 2)),
    ("OverTravel", signed!(179, 2)),
    ("CDP_X", signed!(181, 4)),
    ("CDP_Y", signed!(185, 4)),
    ("INLINE_3D", signed!(189, 4)),
    ("CROSSLINE_3D", signed!(193, 4)),
    ("ShotPoint", signed!(197, 4)),
    ("ShotPointScalar", signed!(201, 2)),
    ("TraceValueMeasurementUnit", signed!(203, 2)),
    ("TransductionConstantMantissa", signed!(205, 4)),
    ("TransductionConstantPower", signed!(209, 2)),
    ("TransductionUnit", signed!(211, 2)),
    ("TraceIdentifier", signed!(213, 2)),
    ("ScalarTraceHeader", signed!(215, 2)),
    ("SourceType", signed!(217, 2)),
    ("SourceEnergyDirectionMantissa", signed!(219, 4)), // direction of the source's energy, where it is a mantissa and an exponent
    ("SourceEnergyDirectionExponent", signed!(223, 2)),
    ("SourceMeasurementMantissa", signed!(225, 4)),
    ("SourceMeasurementExponent", signed!(229, 2)),
    ("SourceMeasurementUnit", signed!(231, 2)),
    ("UnassignedInt1", signed!(233, 4)), // first half of the name of the header
    ("UnassignedInt2", signed!(237, 4)), // second half of the name of the header
    ("cdpx", signed!(181, 4)),
    ("cdpy", signed!(185, 4)),
    ("iline", signed!(189, 4)),
    ("xline", signed!(193, 4)),
    ("sp", signed!(197, 4)),
    ("scalsp", signed!(201, 2)),
    ("trunit", signed!(203, 2)),
    ("tdcm", signed!(205, 4)),
    ("tdcp", signed!(209, 2)),
    ("tdunit", signed!(211, 2)),
    ("triden", signed!(213, 2)),
    ("sctrh", signed!(215, 2)),
    ("stype", signed!(217, 2)),
    ("sedm", signed!(219, 4)),
    ("sede", signed!(223, 2)),
    ("smm", signed!(225, 4)),
    ("sme", signed!(229, 2)),
    ("smunit", signed!(231, 2)),
    ("stat", signed!(135, 2)),
];
