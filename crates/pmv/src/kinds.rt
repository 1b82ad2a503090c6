//! The kinds of things that choose how a vector is reconstructed and what becomes of the predictors. docs/SCOPE.md counts each from 0 in
//! the order of its values; these are not the codes of the stream.
ghost use Rattle.std.specs.Prelude.{◌≡◌, ok_or};
ghost use Rattle.forming_predictions.specs.Parities.{no_meaning};
ghost use Rattle.pmv.specs.Kinds.{component_number, direction_number, direction_from, index_number, index_from, format_number, format_from, structure_number, structure_from, type_number, type_from, coding_number, chroma_number, chroma_from, flag_from, is_vertical, is_field_format, is_frame_picture, is_inter_picture};

pub use forming_predictions::NoMeaning;

/// `t` of Table 7-7.
#[derive(Clone, Copy, Debug, PartialEq, Eq)]
pub enum Component {
    Horizontal,
    Vertical,
}

/// `s` of Table 7-7.
#[derive(Clone, Copy, Debug, PartialEq, Eq)]
pub enum Direction {
    Forward,
    Backward,
}

/// `r` of Table 7-7: the first or the second vector of a macroblock in one direction.
#[derive(Clone, Copy, Debug, PartialEq, Eq)]
pub enum VectorIndex {
    First,
    Second,
}

/// `mv_format`: whether a vector is one of fields or of frames.
#[derive(Clone, Copy, Debug, PartialEq, Eq)]
pub enum MvFormat {
    Field,
    Frame,
}

/// `picture_structure`.
#[derive(Clone, Copy, Debug, PartialEq, Eq)]
pub enum PictureStructure {
    TopField,
    BottomField,
    Frame,
}

/// What `frame_motion_type` or `field_motion_type` selects: Tables 6-17 and 6-18.
#[derive(Clone, Copy, Debug, PartialEq, Eq)]
pub enum PredictionType {
    FieldBased,
    FrameBased,
    SixteenByEight,
    DualPrime,
}

/// `picture_coding_type`.
#[derive(Clone, Copy, Debug, PartialEq, Eq)]
pub enum PictureCodingType {
    Intra,
    Predictive,
    Bidirectional,
    DcIntra,
}

/// `chroma_format`.
#[derive(Clone, Copy, Debug, PartialEq, Eq)]
pub enum ChromaFormat {
    Yuv420,
    Yuv422,
    Yuv444,
}

impl From<Component> for usize {
    ghost from_gives = { λ kind number. number ≡ component_number kind };

    fn from(kind: Component) -> usize {
        kind as usize
    }
}

impl From<Direction> for usize {
    ghost from_gives = { λ kind number. number ≡ direction_number kind };

    fn from(kind: Direction) -> usize {
        kind as usize
    }
}

impl TryFrom<u32> for Direction {
    type Error = NoMeaning;

    ghost try_from_gives = { λ number answer. answer ≡ ok_or (direction_from number) no_meaning };

    fn try_from(number: u32) -> Result<Self, NoMeaning> {
        match number {
            0 => Ok(Direction::Forward),
            1 => Ok(Direction::Backward),
            _ => Err(NoMeaning),
        }
    }
}

impl From<VectorIndex> for usize {
    ghost from_gives = { λ kind number. number ≡ index_number kind };

    fn from(kind: VectorIndex) -> usize {
        kind as usize
    }
}

impl TryFrom<u32> for VectorIndex {
    type Error = NoMeaning;

    ghost try_from_gives = { λ number answer. answer ≡ ok_or (index_from number) no_meaning };

    fn try_from(number: u32) -> Result<Self, NoMeaning> {
        match number {
            0 => Ok(VectorIndex::First),
            1 => Ok(VectorIndex::Second),
            _ => Err(NoMeaning),
        }
    }
}

impl From<MvFormat> for u32 {
    ghost from_gives = { λ kind number. number ≡ format_number kind };

    fn from(kind: MvFormat) -> u32 {
        kind as u32
    }
}

impl TryFrom<u32> for MvFormat {
    type Error = NoMeaning;

    ghost try_from_gives = { λ number answer. answer ≡ ok_or (format_from number) no_meaning };

    fn try_from(number: u32) -> Result<Self, NoMeaning> {
        match number {
            0 => Ok(MvFormat::Field),
            1 => Ok(MvFormat::Frame),
            _ => Err(NoMeaning),
        }
    }
}

impl From<PictureStructure> for u32 {
    ghost from_gives = { λ kind number. number ≡ structure_number kind };

    fn from(kind: PictureStructure) -> u32 {
        kind as u32
    }
}

impl TryFrom<u32> for PictureStructure {
    type Error = NoMeaning;

    ghost try_from_gives = { λ number answer. answer ≡ ok_or (structure_from number) no_meaning };

    fn try_from(number: u32) -> Result<Self, NoMeaning> {
        match number {
            0 => Ok(PictureStructure::TopField),
            1 => Ok(PictureStructure::BottomField),
            2 => Ok(PictureStructure::Frame),
            _ => Err(NoMeaning),
        }
    }
}

impl From<PredictionType> for u32 {
    ghost from_gives = { λ kind number. number ≡ type_number kind };

    fn from(kind: PredictionType) -> u32 {
        kind as u32
    }
}

impl TryFrom<u32> for PredictionType {
    type Error = NoMeaning;

    ghost try_from_gives = { λ number answer. answer ≡ ok_or (type_from number) no_meaning };

    fn try_from(number: u32) -> Result<Self, NoMeaning> {
        match number {
            0 => Ok(PredictionType::FieldBased),
            1 => Ok(PredictionType::FrameBased),
            2 => Ok(PredictionType::SixteenByEight),
            3 => Ok(PredictionType::DualPrime),
            _ => Err(NoMeaning),
        }
    }
}

impl From<PictureCodingType> for u32 {
    ghost from_gives = { λ kind number. number ≡ coding_number kind };

    fn from(kind: PictureCodingType) -> u32 {
        kind as u32
    }
}

impl From<ChromaFormat> for u32 {
    ghost from_gives = { λ kind number. number ≡ chroma_number kind };

    fn from(kind: ChromaFormat) -> u32 {
        kind as u32
    }
}

impl TryFrom<u32> for ChromaFormat {
    type Error = NoMeaning;

    ghost try_from_gives = { λ number answer. answer ≡ ok_or (chroma_from number) no_meaning };

    fn try_from(number: u32) -> Result<Self, NoMeaning> {
        match number {
            0 => Ok(ChromaFormat::Yuv420),
            1 => Ok(ChromaFormat::Yuv422),
            2 => Ok(ChromaFormat::Yuv444),
            _ => Err(NoMeaning),
        }
    }
}

/// No is 0, yes is 1. A function, since neither `bool` nor TryFrom is of this crate.
pub fn flag_from_number(number: u32) -> Result<bool, NoMeaning>
    ensures { result ≡ ok_or (flag_from number) no_meaning }
{
    match number {
        0 => Ok(false),
        1 => Ok(true),
        _ => Err(NoMeaning),
    }
}

impl Component {
    pub fn is_vertical(self) -> bool
        ensures { result ≡ is_vertical self }
    {
        self == Component::Vertical
    }
}

impl MvFormat {
    pub fn is_field(self) -> bool
        ensures { result ≡ is_field_format self }
    {
        self == MvFormat::Field
    }
}

impl PictureStructure {
    pub fn is_frame(self) -> bool
        ensures { result ≡ is_frame_picture self }
    {
        self == PictureStructure::Frame
    }
}

impl PictureCodingType {
    /// Whether the picture is P or B.
    pub fn is_inter(self) -> bool
        ensures { result ≡ is_inter_picture self }
    {
        matches!(
            self,
            PictureCodingType::Predictive | PictureCodingType::Bidirectional
        )
    }
}
